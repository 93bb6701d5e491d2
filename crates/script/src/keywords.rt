//! Lines that are items by themselves, by their keywords.

ghost use Rattle.std.specs.Prelude.{◌≡◌, option_map};
ghost use Rattle.script.specs.Fields.{fields_of};
ghost use Rattle.script.specs.Items.{item_of, item_of_keyword, item_of_keyword_and_others, load_of, cancel_of, copy_under_of, search_in_of};
ghost use Rattle.script.specs.Line.{shown_item};

use crate::cuts::{cut_at_space, search_number};
use crate::item::Item;
use ere::Case;

/// The item of a line that is not a put, from its keyword and what follows the space after it, if there is one. It is
/// `BadLine` if no item has this form.
pub fn item_of<'a>(keyword: &'a [u8], others: Option<&'a [u8]>) -> Item<'a>
    ensures { shown_item result ≡ item_of keyword.now (option_map (λ rest. rest.now) others.entry) }
{
    match others {
        None => item_of_keyword(keyword),
        Some(others) => item_of_keyword_and_others(keyword, others),
    }
}

/// The item of a line that is a keyword alone.
fn item_of_keyword(keyword: &[u8]) -> Item<'_>
    ensures { shown_item result ≡ item_of_keyword keyword.now }
{
    if keyword == b"publish".as_slice() {
        Item::Publish
    } else if keyword == b"sync".as_slice() {
        Item::Sync
    } else if keyword == b"status".as_slice() {
        Item::Status
    } else if keyword == b"search".as_slice() {
        Item::Search {
            case: Case::Exact,
            pattern: &keyword[keyword.len()..],
        }
    } else if keyword == b"isearch".as_slice() {
        Item::Search {
            case: Case::Ignore,
            pattern: &keyword[keyword.len()..],
        }
    } else if keyword == b"find".as_slice() {
        Item::Find {
            request: &keyword[keyword.len()..],
        }
    } else {
        Item::BadLine
    }
}

/// The item of a line with a keyword, a space and more after it.
fn item_of_keyword_and_others<'a>(keyword: &[u8], others: &'a [u8]) -> Item<'a>
    ensures { shown_item result ≡ item_of_keyword_and_others keyword.now others.now }
{
    if keyword == b"search".as_slice() {
        Item::Search {
            case: Case::Exact,
            pattern: others,
        }
    } else if keyword == b"isearch".as_slice() {
        Item::Search {
            case: Case::Ignore,
            pattern: others,
        }
    } else if keyword == b"searchin".as_slice() {
        search_in(Case::Exact, others)
    } else if keyword == b"isearchin".as_slice() {
        search_in(Case::Ignore, others)
    } else if keyword == b"find".as_slice() {
        Item::Find { request: others }
    } else if keyword == b"remove".as_slice() {
        Item::Remove { name: others }
    } else if keyword == b"removeunder".as_slice() {
        Item::RemoveUnder { prefix: others }
    } else if keyword == b"copyunder".as_slice() {
        copy_under(others)
    } else if keyword == b"load".as_slice() {
        load(others)
    } else if keyword == b"cancel".as_slice() {
        cancel(others)
    } else {
        Item::BadLine
    }
}

/// A `searchin` or `isearchin`, from what follows the space after its keyword.
fn search_in(case: Case, fields: &[u8]) -> Item<'_>
    ensures { shown_item result ≡ search_in_of case (fields_of fields.now).first (fields_of fields.now).others }
{
    match cut_at_space(fields) {
        (name_pattern, Some(pattern)) => Item::SearchIn {
            case,
            name_pattern,
            pattern,
        },
        (_, None) => Item::BadLine,
    }
}

/// A `copyunder`, from what follows the space after its keyword.
fn copy_under(fields: &[u8]) -> Item<'_>
    ensures { shown_item result ≡ copy_under_of (fields_of fields.now).first (fields_of fields.now).others }
{
    match cut_at_space(fields) {
        (from, Some(to)) => Item::CopyUnder { from, to },
        (_, None) => Item::BadLine,
    }
}

/// A `load`, from what follows the space after its keyword.
fn load(fields: &[u8]) -> Item<'_>
    ensures { shown_item result ≡ load_of (fields_of fields.now).first (fields_of fields.now).others }
{
    match cut_at_space(fields) {
        (name, Some(path)) if !path.is_empty() => Item::Load { name, path },
        _ => Item::BadLine,
    }
}

/// A `cancel`, from what follows the space after its keyword.
fn cancel(digits: &[u8]) -> Item<'_>
    ensures { shown_item result ≡ cancel_of digits.now }
{
    match search_number(digits) {
        Some(search) => Item::Cancel { search },
        None => Item::BadLine,
    }
}
