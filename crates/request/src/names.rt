//! The names of the options.

ghost use Rattle.std.specs.Prelude.{◌≡◌};
ghost use Rattle.request.specs.Names.{clashes, excludes, greatest_times, is_mark, is_repeatable, is_same, is_view, option_named, takes, text_of};

/// The options of a `find`.
#[derive(Clone, Copy, Debug, PartialEq, Eq)]
pub enum OptionName {
    /// `-i`: case is ignored in the pattern.
    IgnoreCase,
    /// `-F`: the pattern is a text.
    Literal,
    /// `-w`: only matches count that are whole words.
    WholeWords,
    /// `-x`: only matches count that are whole lines.
    WholeLines,
    /// `-v`: the lines that contain no match are found.
    Invert,
    /// `-n ERE`: only documents whose names match count.
    Named,
    /// `-N ERE`: only documents whose names do not match count.
    NotNamed,
    /// `-I`: case is ignored in the patterns of names.
    IgnoreNameCase,
    /// `-m N`: at most N lines, or names, are shown.
    Limit,
    /// `-l`: names alone are shown.
    Names,
    /// `-c`: names are shown with how many of their lines are found.
    Counts,
    /// `-q`: only the header is shown.
    Header,
    /// `-C N`: N lines before and after each line are shown with it.
    Context,
    /// `--column`: for each line, where its first match is.
    Column,
    /// `--spans`: for each line, where its matches are.
    Spans,
    /// `-Z`: a zero byte comes after each name.
    Zero,
    /// `--lane WORD`: in which lane the search waits for a reader.
    Lane,
    /// `--under PREFIX`: only documents count whose names begin with one of the prefixes.
    Under,
    /// `--not-under PREFIX`: only documents count whose names begin with none of the prefixes.
    NotUnder,
}

/// All options.
const ALL: [OptionName; 19] = [
    OptionName::IgnoreCase,
    OptionName::Literal,
    OptionName::WholeWords,
    OptionName::WholeLines,
    OptionName::Invert,
    OptionName::Named,
    OptionName::NotNamed,
    OptionName::IgnoreNameCase,
    OptionName::Limit,
    OptionName::Names,
    OptionName::Counts,
    OptionName::Header,
    OptionName::Context,
    OptionName::Column,
    OptionName::Spans,
    OptionName::Zero,
    OptionName::Lane,
    OptionName::Under,
    OptionName::NotUnder,
];

/// What follows the word of an option.
#[derive(Clone, Copy, Debug)]
pub enum Takes {
    /// Nothing that belongs to it.
    Nothing,
    /// A word.
    Word,
    /// A word of one byte, up to so many.
    ShortWord(u32),
    /// A number from the first to the second, both included.
    Number(u32, u32),
}

/// The option that this word names, or `None` if it names none.
pub fn option_named(word: &[u8]) -> Option<OptionName>
    ensures { result ≡ option_named word.now }
{
    ALL.iter()
        .copied()
        .find(|name| name.text().as_bytes() == word)
}

impl OptionName {
    /// The word of the option, such as `-i`.
    pub fn text(self) -> &'static str
        ensures { result.now ≡ text_of self }
    {
        match self {
            OptionName::IgnoreCase => "-i",
            OptionName::Literal => "-F",
            OptionName::WholeWords => "-w",
            OptionName::WholeLines => "-x",
            OptionName::Invert => "-v",
            OptionName::Named => "-n",
            OptionName::NotNamed => "-N",
            OptionName::IgnoreNameCase => "-I",
            OptionName::Limit => "-m",
            OptionName::Names => "-l",
            OptionName::Counts => "-c",
            OptionName::Header => "-q",
            OptionName::Context => "-C",
            OptionName::Column => "--column",
            OptionName::Spans => "--spans",
            OptionName::Zero => "-Z",
            OptionName::Lane => "--lane",
            OptionName::Under => "--under",
            OptionName::NotUnder => "--not-under",
        }
    }

    /// What follows the word of the option: a word after `-n` and `-N`, one of 1 to 64 bytes after `--lane`, one of 1 byte or
    /// more after `--under` and `--not-under`, a number from 1 to 4,294,967,295 after `-m`, a number from 0 to 1,000 after
    /// `-C`, and nothing after any other.
    pub fn takes(self) -> Takes
        ensures { result ≡ takes self }
    {
        match self {
            OptionName::Named => Takes::Word,
            OptionName::NotNamed => Takes::Word,
            OptionName::Lane => Takes::ShortWord(64),
            OptionName::Under => Takes::ShortWord(u32::MAX),
            OptionName::NotUnder => Takes::ShortWord(u32::MAX),
            OptionName::Limit => Takes::Number(1, u32::MAX),
            OptionName::Context => Takes::Number(0, 1000),
            _ => Takes::Nothing,
        }
    }

    /// Whether both are the same option.
    pub fn is(self, other: OptionName) -> bool
        ensures { result ≡ is_same self other }
    {
        self.text().as_bytes() == other.text().as_bytes()
    }

    /// Whether the option can be there more than once: `-n`, `-N`, `--under` or `--not-under`.
    pub fn is_repeatable(self) -> bool
        ensures { result ≡ is_repeatable self }
    {
        match self {
            OptionName::Named => true,
            OptionName::NotNamed => true,
            OptionName::Under => true,
            OptionName::NotUnder => true,
            _ => false,
        }
    }

    /// How often an option that can be there more than once can be there: 4,096 times for `--under` and `--not-under`, and
    /// 16 times for `-n` and `-N`.
    pub fn most_times(self) -> usize
        ensures { result ≡ greatest_times self }
    {
        match self {
            OptionName::Under => 4096,
            OptionName::NotUnder => 4096,
            _ => 16,
        }
    }

    /// Whether the two options exclude each other: two of `-l`, `-c`, `-q`, `-C`, `--column` and `--spans`, or `-v` and
    /// one of the last two. Each of the six excludes itself.
    pub fn excludes(self, other: OptionName) -> bool
        ensures { result ≡ excludes self other }
    {
        (self.is_view() && other.is_view())
            || (self.is_mark() && other.is(OptionName::Invert))
            || (self.is(OptionName::Invert) && other.is_mark())
    }

    /// Whether the option says what is written for each line or document that is found.
    fn is_view(self) -> bool
        ensures { result ≡ is_view self }
    {
        match self {
            OptionName::Names => true,
            OptionName::Counts => true,
            OptionName::Header => true,
            OptionName::Context => true,
            OptionName::Column => true,
            OptionName::Spans => true,
            _ => false,
        }
    }

    /// Whether the option shows where in a line a match is.
    fn is_mark(self) -> bool
        ensures { result ≡ is_mark self }
    {
        match self {
            OptionName::Column => true,
            OptionName::Spans => true,
            _ => false,
        }
    }
}
