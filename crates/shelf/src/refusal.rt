// Why a call is refused, and where.
ghost use Rattle.std.specs.Prelude.{◌≡◌, Some};
ghost use Rattle.shelf.specs.declared.refusal.Reason.{Reason};
ghost use Rattle.shelf.specs.Refusals.{number};
ghost use Rattle.shelf.specs.Sentences.{sentence, shown};

use std::fmt;

// Why a call is refused: each reason stands for a number.
#[derive(Clone, Copy, PartialEq, Eq)]
pub enum Reason {
    // Shelves and sources.
    StampNotAbove = 1,
    OverCapacity = 2,
    PastEnd = 3,
    // The header.
    NotCphd = 10,
    LineMalformed = 11,
    KeyRepeated = 12,
    KeyMissing = 13,
    KeyNotNumber = 14,
    BlockMisplaced = 15,
    // The XML block.
    WorkTooShort = 20,
    XmlMalformed = 21,
    FieldMalformed = 22,
    // The layout.
    LimitBroken = 30,
    ParameterBroken = 31,
    ArrayMisplaced = 32,
    // Orders.
    OrderCount = 40,
    NamesAbsent = 41,
    // The station.
    SlotUnknown = 50,
    SlotEmpty = 51,
    PlanStale = 52,
    OutputTooShort = 53,
}

// A refusal: its reason, and a place whose meaning the reason fixes (a stamp, a length, a place in the file, a code). It is a pair,
// since every refusal has a place, by which documents and C programs tell it; an enum with data would ask for a match.
#[derive(Clone, Copy, PartialEq, Eq)]
pub struct Refusal {
    pub reason: Reason,
    pub place: u64,
}

impl Reason {
    // The refusal for this reason, with its place.
    pub fn at(self, place: u64) -> Refusal
        ensures reason { result.reason ≡ self }
        ensures place { result.place ≡ place }
    {
        Refusal {
            reason: self,
            place,
        }
    }

    // The number, by which callers and documents name the reason: a method, since `u8::from(reason)` would say less.
    pub fn number(self) -> u8
        ensures own { result ≡ number self }
        ensures alone { (other : Reason) → number other ≡ result → other ≡ self }
    {
        self as u8
    }

    // What is wrong and what the place tells, as a sentence.
    pub fn sentence(self) -> &'static str
        ensures { result.now ≡ sentence self }
    {
        match self {
            Reason::StampNotAbove =>
                "the stamp given is not above the shelf's stamp, which is the place",
            Reason::OverCapacity =>
                "the bytes given are more than the shelf's capacity, which is the place",
            Reason::PastEnd => "the bytes asked for reach past the end; the place is the length",
            Reason::NotCphd => "the file does not begin with CPHD/1.1.0 and a line feed",
            Reason::LineMalformed =>
                "the header line at the place is malformed, the 33rd, or not finished in the first 4,096 bytes",
            Reason::KeyRepeated => "the key of the header line at the place stood before",
            Reason::KeyMissing => "the header lacks the key whose code is the place",
            Reason::KeyNotNumber =>
                "the value of the key whose code is the place is not 1 to 18 digits",
            Reason::BlockMisplaced =>
                "a block starts too early (2, 4, 6 or 8), the signal block does not end with the file (7), or the closing bytes of the XML block are missing (1)",
            Reason::WorkTooShort =>
                "the working buffer is shorter than the XML block, whose size is the place",
            Reason::XmlMalformed => "the XML block breaks the grammar",
            Reason::FieldMalformed =>
                "the root (0) or the field whose code is the place is wrong, missing, repeated, not plain text or no number",
            Reason::LimitBroken => "the field whose code is the place breaks its limit",
            Reason::ParameterBroken =>
                "the parameter whose code is the place is absent, of wrong size, format or name, outside the set, or shares a word or a name",
            Reason::ArrayMisplaced =>
                "an array of the channel that is the place leaves its block or overlaps",
            Reason::OrderCount => "the sheet has no orders, or more than 32; the place is how many",
            Reason::NamesAbsent =>
                "what is named is absent; the place is the order, counted from 0, and 0 for a view",
            Reason::SlotUnknown => "there is no slot of the number that is the place",
            Reason::SlotEmpty => "the slot that is the place is empty",
            Reason::PlanStale =>
                "the plan was compiled under another stamp than the shelf's, which is the place",
            Reason::OutputTooShort =>
                "the output is shorter than the bytes to hand out; the place is how many they are",
        }
    }
}

impl fmt::Display for Refusal {
    ghost output = { λ e. Some (shown e) };

    fn fmt<W: fmt::Write>(&self, f: &mut fmt::Formatter<W>) -> fmt::Result {
        let number = self.reason.number();
        let place = self.place;
        let sentence = self.reason.sentence();
        write!(f, "refused {number} {place}: {sentence}")
    }
}
