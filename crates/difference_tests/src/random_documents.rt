//! Random documents, read as the plain program reads them.

ghost use Rattle.std.specs.Prelude.{◌<◌, ◌≤◌, length};

use crate::plain_reader::{Plain, read_plainly};
use crate::texts::full;
use cim_words::NoMemory;
use difference::{DiffFault, read, write};
use room_words::{Difference, StageFault, StageWord};
use std::alloc::Global;
use std::test::Fail;

const DOCUMENTS: usize = 2000;

const HEADINGS: [&str; 8] = [
    "%header",
    "%preconditions",
    "%reverse",
    "%forward",
    "%end",
    "%forward \t",
    "%end  ",
    "%preconditions\t",
];

/// Lines in short: mostly triples, and rarely what is refused.
const LINES: [&str; 24] = [
    "~51> <p> \"v\" .",
    "~51> <p> \"v\" .",
    "~51> <p> \"v\\n\"@en .",
    "~51> <p> \"v\"^^<d> . # c",
    "~52> <p> ~53> .",
    "~52> <p> <x#_00000000-0000-4000-8000-000000000053> .",
    "<x#_00000000-0000-4000-8000-000000000051> <p> <b> .",
    "~53> a <:ACLineSegment> .",
    "~53> <:Conductor.length> \"100\" .",
    "~53><:Conductor.length>\"100\".",
    "~54> <p> <b> .",
    "~54> <p> \"%end\" .",
    " ~55> <p> \"\" .",
    "\t~55> <p> <b\\u003Cc> .",
    "~56> <p> <b> .#",
    "~56> <q> <b> .",
    "",
    "# a comment",
    " \t",
    "",
    " %end",
    "~57> <p> _:b .",
    "<http://x/y> <p> <b> .",
    "~57> <p> \"v\"",
];

const ENDS: [&str; 6] = ["\n", "\n", "\r\n", "\n", "\r", "\n\r\n"];

/// What is put into a damaged document.
const PIECES: [&[u8]; 12] = [
    b"%",
    b"\n",
    b"\r",
    b" ",
    b"#",
    b"<",
    b".",
    b"\xFF",
    b"_:",
    b"\n%end\n",
    b"%forward\n",
    b"",
];

/// Numbers that look random: a linear congruential generator (Knuth's MMIX).
#[derive(Drop)]
struct Random {
    state: u64,
}

impl Random {
    /// A number below a bound.
    fn below(&mut self, bound: usize) -> usize
        requires { 0 < bound }
        ensures { result < bound }
    {
        self.state = self
            .state
            .wrapping_mul(6_364_136_223_846_793_005)
            .wrapping_add(1_442_695_040_888_963_407);
        (self.state >> 33) as usize % bound
    }

    /// The next heading, or rarely another one, and then a few lines: fewer behind the last heading.
    fn part(&mut self, alloc: Global, next: usize) -> Result<String, NoMemory> {
        let heading = if self.below(16) == 0 {
            HEADINGS[self.below(8)]
        } else {
            HEADINGS[next % 8]
        };
        let mut text = [heading, ENDS[self.below(6)]].concat(alloc)?;
        let most = if next == 4 { 2 } else { 5 };
        for _ in 0..self.below(most) {
            text.push_str(self.line())?;
            text.push_str(ENDS[self.below(6)])?;
        }
        Ok(text)
    }

    /// A line. The last four, which are refused, are rare.
    fn line(&mut self) -> &'static str {
        let kinds = if self.below(12) == 0 { 24 } else { 20 };
        LINES[self.below(kinds)]
    }

    /// A document of some of the parts, in their order.
    fn document(&mut self, alloc: Global) -> Result<String, NoMemory> {
        let mut text = String::new(alloc);
        for next in 0..5 {
            if self.below(5) > 0 {
                text.push_str(&self.part(alloc, next)?)?;
            }
        }
        full(alloc, &text)
    }

    /// The document with some bytes replaced, up to three of them, or with its end cut off.
    fn damaged(&mut self, alloc: Global, document: &[u8]) -> Result<Vec<u8>, NoMemory> {
        let length = document.len();
        if length == 0 || length > 1_000_000 {
            return Vec::from_slice(alloc, document);
        }
        let (before, rest) = document.split_at(self.below(length));
        if self.below(8) == 0 {
            return Vec::from_slice(alloc, before);
        }
        let piece = PIECES[self.below(12)];
        let after = rest.iter().skip(self.below(4)).copied();
        let mut damaged = [before, piece].concat(alloc)?;
        for byte in after {
            damaged.push(byte)?;
        }
        Ok(damaged)
    }
}

/// Whether a difference says just what the plain program found.
fn is_said(difference: &Difference, plain: &Plain) -> bool {
    difference.header().as_slice() == plain.header.as_slice()
        && difference.pre().as_slice() == plain.pre.as_slice()
        && difference.rev().as_slice() == plain.rev.as_slice()
        && difference.fwd().as_slice() == plain.fwd.as_slice()
}

/// Whether the text of a difference is that of the plain program, and reads as the same again.
fn is_written(alloc: Global, difference: &Difference, plain: &Plain) -> Result<bool, DiffFault> {
    let mut text = Vec::new(alloc);
    write(difference, &mut text)?;
    let again = read(alloc, &text)?;
    Ok(
        text == plain.text(alloc)?
            && text.len() as u64 == difference.size()
            && is_said(&again, plain),
    )
}

/// Whether a document that is read as a difference is read so by the plain program.
fn is_same(
    alloc: Global,
    difference: &Difference,
    want: &Result<Plain, StageFault>,
) -> Result<bool, DiffFault> {
    match want {
        Ok(plain) => Ok(is_said(difference, plain) && is_written(alloc, difference, plain)?),
        Err(_) => Ok(false),
    }
}

/// A bit for each word but those of limits.
fn bit_of(word: StageWord) -> u16 {
    match word {
        StageWord::Utf8 => 2,
        StageWord::Blank => 4,
        StageWord::Syntax => 8,
        StageWord::Subject => 16,
        StageWord::Heading => 32,
        StageWord::NoEnd => 64,
        _ => 0,
    }
}

/// What came of a document, 1 for a difference and another bit for a fault, if both readings tell the same.
fn bit_told(alloc: Global, document: &[u8]) -> Result<Option<u16>, DiffFault> {
    let want = read_plainly(alloc, document)?;
    match read(alloc, document) {
        Ok(difference) => Ok(is_same(alloc, &difference, &want)?.then_some(1)),
        Err(DiffFault::Stage(fault)) => Ok(
            (want.err() == Some(fault)).then_some(bit_of(fault.word)),
        ),
        Err(DiffFault::NoMemory) => Err(DiffFault::NoMemory),
    }
}

#[test]
fn reads_as_the_plain_program(rt: HostRuntime) -> Result<(), Fail> {
    let alloc = rt.alloc();
    let mut random = Random { state: 16 };
    let mut came = 0_u16;
    let mut read = 0_u32;
    for number in 0..DOCUMENTS {
        let whole = random.document(alloc)?;
        let document = if random.below(4) == 0 {
            random.damaged(alloc, whole.as_bytes())?
        } else {
            Vec::from_slice(alloc, whole.as_bytes())?
        };
        let bit = bit_told(alloc, &document)?.unwrap_or(0);
        assert!(rt; bit > 0, "document {number}");
        came |= bit;
        read = read.saturating_add(u32::from(bit == 1));
    }
    assert!(rt; came == 127, "{came}");
    assert!(rt; read > 400, "{read} were read");
    Ok(())
}
