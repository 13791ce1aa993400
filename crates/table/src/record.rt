// The records of a table file.
ghost use Rattle.std.specs.Prelude.{◌≡◌, ◌+◌, ◌≤◌, length, drop};
ghost use Rattle.table.specs.Reading.{word_at, is_due, body_length};
ghost use Rattle.table.specs.Inspecting.{Opened, Inspected, dimensions_of, flow_of};

use crate::flow::{Dimensions, Flow};
use crate::refusal::Refusal;
use quantity::{Depth, Frame, Packets, Rate};

#[derive(Clone, Copy, PartialEq, Eq, Debug)]
pub(crate) enum Kind {
    Head,
    Flow,
    End,
}

// A number that names no kind of record.
#[derive(Clone, Copy, PartialEq, Eq, Debug)]
pub(crate) struct UnknownKind(pub(crate) u16);

impl TryFrom<u16> for Kind {
    type Error = UnknownKind;

    ghost use Rattle.table.specs.Kinds.{Names};

    ghost try_from_gives = { Names };

    fn try_from(number: u16) -> Result<Kind, UnknownKind> {
        match number {
            1 => Ok(Kind::Head),
            2 => Ok(Kind::Flow),
            3 => Ok(Kind::End),
            _ => Err(UnknownKind(number)),
        }
    }
}

impl Kind {
    // The head stands at byte 0, and the others behind it.
    fn is_due(self, at: usize) -> bool
        ensures { result ≡ is_due at self }
    {
        match self {
            Kind::Head => at == 0,
            Kind::Flow | Kind::End => at > 0,
        }
    }

    fn body_length(self) -> usize
        ensures { result ≡ body_length self }
    {
        match self {
            Kind::Head => 4,
            Kind::Flow => 8,
            Kind::End => 2,
        }
    }
}

// The bytes from a record on, which stands at byte `at` of its file.
#[derive(Clone, Copy)]
pub(crate) struct Rest<'a> {
    pub(crate) at: usize,
    pub(crate) bytes: &'a [u8],
}

impl<'a> Rest<'a> {
    // What is left of a file from a byte on.
    pub(crate) fn new(file: &'a [u8], at: usize) -> Rest<'a>
        requires { at ≤ length file.now }
        ensures at { result.at ≡ at }
        ensures bytes { result.bytes.now ≡ drop at file.now }
    {
        Rest {
            at,
            bytes: &file[at..],
        }
    }

    // The two-byte number at byte `k` of it.
    pub(crate) fn word(&self, k: usize) -> u16
        requires { k + 2 ≤ length self.now.bytes.now }
        ensures { result ≡ word_at self.now.bytes.now k }
    {
        u16::from_le_bytes([self.bytes[k], self.bytes[k + 1]])
    }

    // What its header says.
    fn kind(&self) -> Result<Kind, Refusal>
        ensures { Opened self.now.at self.now.bytes.now result }
    {
        if self.bytes.len() < 4 {
            return Err(Refusal::Cut(self.at));
        }
        match Kind::try_from(self.word(2)) {
            Ok(kind) if kind.is_due(self.at) => Ok(kind),
            _ => Err(Refusal::Undue(self.at)),
        }
    }

    // The kind of the record, if it is there to its end.
    pub(crate) fn inspect(&self) -> Result<Kind, Refusal>
        ensures { Inspected self.now.at self.now.bytes.now result }
    {
        let kind = self.kind()?;
        let length = kind.body_length();
        if self.word(0) as usize != length {
            return Err(Refusal::Missized(self.at));
        }
        if self.bytes.len() < 4 + length {
            return Err(Refusal::Cut(self.at));
        }
        Ok(kind)
    }

    // What the body of a head says.
    pub(crate) fn dimensions(&self) -> Dimensions
        requires { 8 ≤ length self.now.bytes.now }
        ensures { result ≡ dimensions_of self.now.bytes.now }
    {
        Dimensions {
            side: self.bytes[4],
            depth: Depth(self.bytes[5]),
            frame: Frame(self.word(6)),
        }
    }

    // What the body of a flow says.
    pub(crate) fn flow(&self) -> Flow
        requires { 12 ≤ length self.now.bytes.now }
        ensures { result ≡ flow_of self.now.bytes.now }
    {
        Flow {
            source: (self.bytes[4], self.bytes[5]),
            destination: (self.bytes[6], self.bytes[7]),
            burst: Packets(self.word(8)),
            rate: Rate(self.word(10)),
        }
    }
}
