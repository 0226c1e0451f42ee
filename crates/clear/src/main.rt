// The clearing program: the clearing of the sheet on standard input, to standard output, by rule 1; with `--quiet` the
// efficient clearing, with `--why` what decided for each guest, each with `--rule 2` after it by rule 2; with `--write`
// the shortest sheet that states the same market. With `--csv` before all of them it reads a comma-separated market.
#![tactic(auto)]

ghost use Rattle.std.specs.Prelude.{◌≤◌, [], ◌∷◌, ◌≡◌, length, take, IfOk};
ghost use Rattle.model.specs.text.Asked.{◌spells◌, rule_spelt, rule_asked, page_asked, asked};

use model::limits::MAX_PAGE;
use model::page::{Asked, Layout, Page};
use model::rule::Rule;
use std::env::{Env, FillError};
use std::io;
use std::io::{Read, Write};

// The bytes of the longest comma-separated market that is accepted, which is longer than the largest sheet: two lines
// of 40 fields and 200 of 42, each of ten digits, with their commas and line ends.
const MAX_CSV: usize = 93_482;

// Reads to the end of the input, or until the buffer is full. Gives how many bytes were read. The loop counts bytes and
// not turns, and ends with the input: `read_to_end` takes a heap, and `read_exact` fails on an input that is shorter.
fn read_input<R: Read>(input: &mut R, buffer: &mut [u8]) -> io::Result<usize>
    ensures { IfOk result (λ n. n ≤ length buffer.old) }
{
    let mut n = 0;
    while n < buffer.len() {
        let more = input.read(&mut buffer[n..])?;
        if more == 0 {
            return Ok(n);
        }
        n += more;
    }
    Ok(n)
}

// Whether an argument is a word: the comparison of slices, with a contract in the word of the definitions.
fn spells(given: &[u8], word: &[u8]) -> bool
    ensures { result ≡ given.now spells word.now }
{
    given == word
}

// The rule that a number names.
fn rule_spelt(number: &[u8]) -> Option<Rule>
    ensures { result ≡ rule_spelt number.now }
{
    if spells(number, b"1") {
        return Some(Rule::Median);
    }
    if spells(number, b"2") {
        return Some(Rule::TwoThirds);
    }
    None
}

// The rule that the arguments after the page's own ask for: so many, of which these are the first.
fn rule_asked(count: usize, option: &[u8], number: &[u8]) -> Option<Rule>
    ensures { result ≡ rule_asked (take count (option.now ∷ number.now ∷ [] ∷ [])) }
{
    if count == 0 {
        return Some(Rule::Median);
    }
    if count != 2 {
        return None;
    }
    if spells(option, b"--rule") {
        return rule_spelt(number);
    }
    None
}

// The page that so many arguments after the layout's own ask for, of which these are the first. They are passed one by
// one: of a slice of words the contract would have to say what each of them is.
fn page_asked(
    layout: Layout,
    count: usize,
    first: &[u8],
    second: &[u8],
    third: &[u8],
) -> Option<Asked>
    ensures { result ≡ page_asked layout
        (take count (first.now ∷ second.now ∷ third.now ∷ [] ∷ [])) }
{
    if count == 0 {
        return Some(Asked {
            layout,
            page: Page::Clearing(Rule::Median),
        });
    }
    let page = if spells(first, b"--quiet") {
        Page::Efficient(rule_asked(count - 1, second, third)?)
    } else if spells(first, b"--why") {
        Page::Reasons(rule_asked(count - 1, second, third)?)
    } else if spells(first, b"--write") {
        if count != 1 {
            return None;
        }
        Page::Sheet
    } else {
        Page::Clearing(rule_asked(count, first, second)?)
    };
    Some(Asked { layout, page })
}

// What so many arguments ask for, of which these are the first.
fn all_asked(
    count: usize,
    first: &[u8],
    second: &[u8],
    third: &[u8],
    fourth: &[u8],
) -> Option<Asked>
    ensures { result ≡ asked (take count
        (first.now ∷ second.now ∷ third.now ∷ fourth.now ∷ [] ∷ [])) }
{
    if count == 0 {
        return page_asked(Layout::Sheet, 0, first, second, third);
    }
    if spells(first, b"--csv") {
        return page_asked(Layout::Csv, count - 1, second, third, fourth);
    }
    page_asked(Layout::Sheet, count, first, second, third)
}

// An argument: the bytes of one that is not longer than the longest word, else none, as no word is. A buffer with a
// length, since there is no heap.
#[derive(Drop)]
struct Argument {
    bytes: [u8; 7],
    length: usize,
    ghost within: { length ≤ 7 },
}

impl Argument {
    fn at(system: &HostRuntime, place: usize) -> Argument {
        let mut bytes = [0u8; 7];
        let length = system.arg(place, &mut bytes).unwrap_or(0);
        Argument { bytes, length }
    }

    fn text(&self) -> &[u8] {
        &self.bytes[..self.length]
    }
}

// How many arguments there are, with the program's name.
fn argument_count(system: &HostRuntime) -> usize {
    let mut buffer = [0u8; 7];
    for place in 0..usize::MAX {
        match system.arg(place, &mut buffer) {
            Err(FillError::NotPresent) => return place,
            Err(FillError::TooLong) | Ok(_) => {}
        }
    }
    usize::MAX
}

// By the arguments that the program was started with.
fn read_arguments(system: &HostRuntime) -> Option<Asked> {
    let first = Argument::at(system, 1);
    let second = Argument::at(system, 2);
    let third = Argument::at(system, 3);
    let fourth = Argument::at(system, 4);
    let count = argument_count(system).saturating_sub(1);
    all_asked(
        count,
        first.text(),
        second.text(),
        third.text(),
        fourth.text(),
    )
}

// Where standard error fails too, nobody is left to tell.
fn complain<W: Write>(errors: &mut W, words: &[u8]) {
    let _ = errors.write_all(words);
}

// Reads at most one byte more than the longest text has that is accepted, so that every fault is seen. That a page is
// empty, which that of no guests is, is told too: a program that failed may write nothing. The buffers are arrays of
// the most that is read and written: there is no heap.
fn print<R: Read, W: Write, E: Write>(input: &mut R, output: &mut W, errors: &mut E, asked: Asked) {
    let mut bytes = [0u8; MAX_CSV + 1];
    match read_input(input, &mut bytes) {
        Err(_) => {
            complain(errors, b"clear: cannot read standard input\n");
        }
        Ok(n) => {
            let mut out = [0u8; MAX_PAGE];
            let k = report::print_page(asked.layout, asked.page, &bytes[..n], &mut out);
            if output.write_all(&out[..k]).is_err() {
                complain(errors, b"clear: cannot write standard output\n");
            } else if k == 0 {
                complain(errors, b"clear: no guests\n");
            }
        }
    }
}

// What the system reads and writes no contract can say.
fn main(rt: HostRuntime) {
    let mut errors = rt.stderr();
    match read_arguments(&rt) {
        None => {
            complain(&mut errors, b"clear: no such argument\n");
        }
        Some(asked) => {
            print(&mut rt.stdin(), &mut rt.stdout(), &mut errors, asked);
        }
    }
}
