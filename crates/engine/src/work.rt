//! How long the engine takes for a pattern. Nothing can stop it while it compiles one, or before the end of a text. No answer depends
//! on any of this.

use ere::{ByteSet, Ere, capped_leaves};
use std::alloc::{AllocError, Global};

/// The longest text that is searched at one go for a simple tree, in bytes. The engine looks for a literal then, or has so few states
/// that it takes a nanosecond for a byte.
const LONGEST_IF_SIMPLE: usize = 5_242_880;

/// The same for a tree with at most `FEW_LEAVES` or `FEW_CHOICES`. The engine soon has all the states that it needs then.
const LONGEST: usize = 262_144;

/// For any other tree, the length of the text times the number of leaves. The engine's tables may give up, and then it takes some
/// 50 ns for a byte and a leaf.
const MOST_WORK: usize = 65_536;

const FEW_LEAVES: u32 = 12;

const FEW_CHOICES: u32 = 8;

/// How often the engine may join texts with a neighbour's while it compiles a pattern. That takes some milliseconds.
const MOST_JOINS: usize = 20_000;

/// From so many parts of a pattern on it joins the texts of the parts that follow, up to so many parts and so many texts.
const MOST_PARTS: usize = 64;

const MOST_TEXTS: u32 = 64;

/// What an alternation counts.
const ALTERNATION: u32 = 3;

/// What an anchor counts.
const ANCHOR: u32 = 3;

/// The longest text that the tree's pattern should search at one go, in bytes.
pub(crate) fn longest_for(tree: &Ere) -> usize {
    let choices = choices_in(tree);
    let leaves = capped_leaves(tree);
    if choices == 0 || is_row(tree) {
        LONGEST_IF_SIMPLE
    } else if leaves <= FEW_LEAVES || choices <= FEW_CHOICES {
        LONGEST
    } else {
        MOST_WORK / (leaves as usize).max(1)
    }
}

/// Whether the tree is a row of any length of bytes of one set.
fn is_row(tree: &Ere) -> bool {
    match tree {
        Ere::Repeat(body, _, None) => is_set(body),
        _ => false,
    }
}

/// Whether the tree is one set.
fn is_set(tree: &Ere) -> bool {
    match tree {
        Ere::Set(_) => true,
        _ => false,
    }
}

/// At how many places of the tree a match can go on in several ways: at sets of several bytes, if these are not the two cases of a
/// letter, at alternations, at anchors, and where a repeat can end or go on. Each further one can double the states of the engine.
#[cycle(choices)]
fn choices_in(tree: &Ere) -> u32 {
    match tree {
        Ere::Empty => 0,
        Ere::Start => ANCHOR,
        Ere::End => ANCHOR,
        Ere::Set(members) => if is_letter(members) { 0 } else { 1 },
        Ere::Cat(members) => choices_in_all(members),
        Ere::Alt(members) => choices_in_all(members).saturating_add(ALTERNATION),
        Ere::Repeat(body, least, greatest) => {
            let (copies, ends) = match greatest {
                Some(most) => (*most, most.saturating_sub(*least)),
                None => ((*least).max(1), 1),
            };
            choices_in(body)
                .saturating_mul(copies as u32)
                .saturating_add(ends as u32)
        }
    }
}

/// The choices in all members.
#[cycle(choices)]
fn choices_in_all(members: &[Ere]) -> u32 {
    let mut choices = 0u32;
    for i in 0..members.len() {
        choices = choices.saturating_add(choices_in(&members[i]));
    }
    choices
}

/// Whether the set has one byte at most, or a letter in its two cases.
fn is_letter(set: &ByteSet) -> bool {
    if set.len() != 2 {
        return set.len() <= 1;
    }
    for letter in b'a'..=b'z' {
        if set.has(letter) {
            return set.has(letter - 32);
        }
    }
    false
}

/// Whether it would take more than some milliseconds to compile the tree's pattern: the engine tries the texts of each row of parts as
/// what it looks for first. An `Err` means that memory ran out.
pub(crate) fn takes_long(alloc: Global, tree: &Ere) -> Result<bool, AllocError> {
    let mut parts = Vec::new(alloc);
    add_parts(tree, &mut parts)?;
    Ok(joins_in(parts.as_slice()) > MOST_JOINS)
}

/// Adds the number of texts of each part of the tree.
#[cycle(parts)]
fn add_parts(tree: &Ere, parts: &mut Vec<u32>) -> Result<(), AllocError> {
    match tree {
        Ere::Cat(members) => {
            for i in 0..members.len() {
                add_parts(&members[i], parts)?;
            }
        }
        _ => parts.push(texts_of(tree))?,
    }
    Ok(())
}

/// How often texts are joined where these are the numbers of the parts' texts.
fn joins_in(parts: &[u32]) -> usize {
    let mut joins: usize = 0;
    for from in 0..parts.len().min(MOST_PARTS) {
        joins = joins.saturating_add(joins_from(&parts[from..]));
    }
    joins
}

/// The same for the texts that begin with the first part.
fn joins_from(parts: &[u32]) -> usize {
    let mut joins: usize = 0;
    let mut texts: u32 = 1;
    for at in 0..parts.len().min(MOST_PARTS) {
        texts = texts.saturating_mul(parts[at]);
        if texts > MOST_TEXTS {
            return joins;
        }
        joins = joins.saturating_add(texts as usize);
    }
    joins
}

/// How many texts the tree has, or very many where a repeat has no greatest count.
#[cycle(texts)]
fn texts_of(tree: &Ere) -> u32 {
    match tree {
        Ere::Empty => 1,
        Ere::Start => 1,
        Ere::End => 1,
        Ere::Set(members) => members.len() as u32,
        Ere::Cat(members) => {
            let mut texts = 1u32;
            for i in 0..members.len() {
                texts = texts.saturating_mul(texts_of(&members[i]));
            }
            texts
        }
        Ere::Alt(members) => {
            let mut texts = 0u32;
            for i in 0..members.len() {
                texts = texts.saturating_add(texts_of(&members[i]));
            }
            texts
        }
        Ere::Repeat(_, _, None) => u32::MAX,
        Ere::Repeat(body, least, Some(most)) => {
            let ends = (most.saturating_sub(*least) as u32).saturating_add(1);
            texts_of(body)
                .saturating_pow(*most as u32)
                .saturating_mul(ends)
        }
    }
}
