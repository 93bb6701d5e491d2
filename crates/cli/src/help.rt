//! The texts of `--help` and `--version`.

/// What `--help` and `-h` show. It ends with a line feed.
pub const HELP: &str = "\
Searches documents, line by line, by POSIX extended regular expressions, as a script says.

Usage: tsearch [OPTIONS] [FILE]

Arguments:
  [FILE]  The script [default: standard input]

Options:
      --readers <N>       How many reader threads answer the searches, 0 to 16 [default: 2].
                          With 0 each search is answered at once. More readers help, up to
                          the number of processors, if there are many searches between two
                          syncs and they find many lines
      --stats             Shows with each answer how many documents may have a match, judged by
                          their trigrams, and how many there are
      --times             Shows with each answer for how many microseconds it waited and worked,
                          and by which way its lines were found
      --max-commands <N>  How many puts, loads, removes and copies are accepted, 1 to 4294967294
                          [default: 1000000]
      --live              Carries out each line as it arrives, and writes each answer as soon as it
                          is there, whichever search was asked first
      --search-ms <N>     Gives a search up that has no answer N milliseconds after it was asked,
                          1 to 4294967295 [default: no limit]
      --max-body <N>      How many bytes a document may have, 1 to 67108864 [default: 1048576]
      --max-line <N>      How many bytes a line of it may have, 1 to 67108864 [default: 16384]
      --max-name <N>      How many bytes a name may have, 1 to 4096 [default: 255]
  -h, --help              Shows this help
  -V, --version           Shows the version

A script is a list of lines:
  put NAME N          takes the next N bytes as the document NAME; a line feed follows them
  load NAME PATH      takes the file PATH as the document NAME
  remove NAME         removes the document NAME
  removeunder PREFIX  removes all documents whose names begin with PREFIX
  copyunder FROM TO   copies all documents whose names begin with FROM to names with TO in its place
  publish             lets searches see all puts, loads, removes and copies so far
  search ERE          lists the lines with a match of the expression ERE
  searchin NAMES ERE  lists them only in documents whose names match the expression NAMES
  isearch ERE, isearchin NAMES ERE
                      do the same with the case of letters ignored in ERE
  find OPTIONS -- ERE searches with options as grep has them: -i -F -w -x -v -m N -l -c -q -C N,
                      and -n NAMES, -N NAMES, -I, --column, --spans, -Z, --under PREFIX,
                      --not-under PREFIX and --lane WORD
  sync                waits until the searches before it are answered
  cancel K            gives up search K, if it has no answer yet
  status              shows the version, documents, bytes, commands and open searches
  # COMMENT           does nothing, and neither does an empty line

Names and NAMES have no space. An ERE is everything after its space. A document
has no byte 0.

Each search prints `search K version V lines L`, and then each line as NAME:LINE:TEXT.
What is refused is printed too, with its reason, and the script goes on. Only a put
with no count or a wrong one ends the script.

The status is 0 if a search found a line, 1 if none did, 2 if anything was refused.

Scripts are described in docs/SCRIPT.md, and patterns in docs/PATTERNS.md.

An example:
  printf 'load notes notes.txt\\npublish\\nsearch ^[0-9]+ apples?\\n' | tsearch
";

/// What `--version` and `-V` show: the name of the program and its version. It ends with a line feed.
pub const VERSION: &str = "tsearch 0.1.0\n";
