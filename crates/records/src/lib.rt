// Records of the public GDSII stream format: the data that each type can have, the order in which they come, and how each is treated. The public
// functions are `record_of` and `treatment_of`. What they promise is in specs/: the two tables of the format in specs/Format.antt, and one record in
// specs/Records.antt.
#![tactic(auto)]

ghost use Rattle.std.specs.Prelude.{◌≡◌, ℕ, is_some};
ghost use Rattle.records.specs.Format.{fits_length, fits, follow};
ghost use Rattle.records.specs.Records.{head_of, known, treatment_of, record_of};
ghost use Rattle.records.specs.Inner.{length_of, fits_data, row_of};

use crate::Form::{AsciiText, BitArray, EightByteReal, FourByte, NoData, TwoByte};
use crate::Length::{Exactly, Units};
use bigendian::BigEndian;
use entry::Reason;

// ---- Record types, as bytes: all 256 are treated, and an enum's `TryFrom` would name each of the 48 once more, in over 40 lines

const HEADER: u8 = 0;

const BGNLIB: u8 = 1;

const LIBNAME: u8 = 2;

const UNITS: u8 = 3;

const ENDLIB: u8 = 4;

const BGNSTR: u8 = 5;

const STRNAME: u8 = 6;

const ENDSTR: u8 = 7;

const BOUNDARY: u8 = 8;

const PATH: u8 = 9;

const SREF: u8 = 10;

const AREF: u8 = 11;

const TEXT: u8 = 12;

const LAYER: u8 = 13;

const DATATYPE: u8 = 14;

const WIDTH: u8 = 15;

const XY: u8 = 16;

const ENDEL: u8 = 17;

const SNAME: u8 = 18;

const COLROW: u8 = 19;

const NODE: u8 = 21;

const TEXTTYPE: u8 = 22;

const PRESENTATION: u8 = 23;

const STRING: u8 = 25;

const STRANS: u8 = 26;

const MAG: u8 = 27;

const ANGLE: u8 = 28;

const REFLIBS: u8 = 31;

const FONTS: u8 = 32;

const PATHTYPE: u8 = 33;

const GENERATIONS: u8 = 34;

const ATTRTABLE: u8 = 35;

const ELFLAGS: u8 = 38;

const NODETYPE: u8 = 42;

const PROPATTR: u8 = 43;

const PROPVALUE: u8 = 44;

const BOX: u8 = 45;

const BOXTYPE: u8 = 46;

const PLEX: u8 = 47;

const BGNEXTN: u8 = 48;

const ENDEXTN: u8 = 49;

const STRCLASS: u8 = 52;

const FORMAT: u8 = 54;

const MASK: u8 = 55;

const ENDMASKS: u8 = 56;

const LIBDIRSIZE: u8 = 57;

const SRFNAME: u8 = 58;

const LIBSECUR: u8 = 59;

// ---- The order of records, row by row as in specs/Format.antt

/// A row: the type that comes there, the row that it leads to, and the one where another type is tried; where there is none, it is refused.
#[derive(Clone, Copy, Debug, PartialEq, Eq)]
struct Row(u8, u8, Option<u8>);

/// The rows, from row 1 on.
const ORDER: [Row; 81] = [
    Row(HEADER, 2, None),
    Row(BGNLIB, 3, None),
    Row(LIBDIRSIZE, 4, Some(4)),
    Row(SRFNAME, 5, Some(5)),
    Row(LIBSECUR, 6, Some(6)),
    Row(LIBNAME, 7, None),
    Row(REFLIBS, 8, Some(8)),
    Row(FONTS, 9, Some(9)),
    Row(ATTRTABLE, 10, Some(10)),
    Row(GENERATIONS, 11, Some(11)),
    Row(FORMAT, 12, Some(15)),
    Row(MASK, 13, Some(15)),
    Row(MASK, 13, Some(14)),
    Row(ENDMASKS, 15, None),
    Row(UNITS, 16, None),
    Row(BGNSTR, 18, Some(17)),
    Row(ENDLIB, 17, None),
    Row(STRNAME, 19, None),
    Row(STRCLASS, 20, Some(20)),
    Row(BOUNDARY, 28, Some(21)),
    Row(PATH, 33, Some(22)),
    Row(SREF, 42, Some(23)),
    Row(AREF, 49, Some(24)),
    Row(TEXT, 57, Some(25)),
    Row(NODE, 69, Some(26)),
    Row(BOX, 74, Some(27)),
    Row(ENDSTR, 16, None),
    Row(ELFLAGS, 29, Some(29)),
    Row(PLEX, 30, Some(30)),
    Row(LAYER, 31, None),
    Row(DATATYPE, 32, None),
    Row(XY, 79, None),
    Row(ELFLAGS, 34, Some(34)),
    Row(PLEX, 35, Some(35)),
    Row(LAYER, 36, None),
    Row(DATATYPE, 37, None),
    Row(PATHTYPE, 38, Some(38)),
    Row(WIDTH, 39, Some(39)),
    Row(BGNEXTN, 40, Some(40)),
    Row(ENDEXTN, 41, Some(41)),
    Row(XY, 79, None),
    Row(ELFLAGS, 43, Some(43)),
    Row(PLEX, 44, Some(44)),
    Row(SNAME, 45, None),
    Row(STRANS, 46, Some(48)),
    Row(MAG, 47, Some(47)),
    Row(ANGLE, 48, Some(48)),
    Row(XY, 79, None),
    Row(ELFLAGS, 50, Some(50)),
    Row(PLEX, 51, Some(51)),
    Row(SNAME, 52, None),
    Row(STRANS, 53, Some(55)),
    Row(MAG, 54, Some(54)),
    Row(ANGLE, 55, Some(55)),
    Row(COLROW, 56, None),
    Row(XY, 79, None),
    Row(ELFLAGS, 58, Some(58)),
    Row(PLEX, 59, Some(59)),
    Row(LAYER, 60, None),
    Row(TEXTTYPE, 61, None),
    Row(PRESENTATION, 62, Some(62)),
    Row(PATHTYPE, 63, Some(63)),
    Row(WIDTH, 64, Some(64)),
    Row(STRANS, 65, Some(67)),
    Row(MAG, 66, Some(66)),
    Row(ANGLE, 67, Some(67)),
    Row(XY, 68, None),
    Row(STRING, 79, None),
    Row(ELFLAGS, 70, Some(70)),
    Row(PLEX, 71, Some(71)),
    Row(LAYER, 72, None),
    Row(NODETYPE, 73, None),
    Row(XY, 79, None),
    Row(ELFLAGS, 75, Some(75)),
    Row(PLEX, 76, Some(76)),
    Row(LAYER, 77, None),
    Row(BOXTYPE, 78, None),
    Row(XY, 79, None),
    Row(PROPATTR, 80, Some(81)),
    Row(PROPVALUE, 79, None),
    Row(ENDEL, 20, None),
];

// The row of the order that a record of a type leads to from a row, if it may come there. Each row says where to look next, so this is a loop. What a
// row names is a row, so only the first is looked for.
fn follow(at: u8, kind: u8) -> Option<u8>
    ensures { result ≡ row_of (follow at kind) }
{
    // An index into the constant itself would copy it whole.
    let rows = &ORDER;
    if at == 0 || rows.len() < usize::from(at) {
        return None;
    }
    let mut row = at;
    loop {
        let Row(expected, next, skip) = rows[usize::from(row) - 1];
        if expected == kind {
            return Some(next);
        }
        row = skip?;
    }
}

// ---- The data of records, type by type

/// What the data are, with the data-type byte of each.
#[derive(Clone, Copy, Debug, PartialEq, Eq)]
enum Form {
    NoData = 0,
    BitArray = 1,
    TwoByte = 2,
    FourByte = 3,
    EightByteReal = 5,
    AsciiText = 6,
}

/// How many bytes of data.
#[derive(Clone, Copy, Debug, PartialEq, Eq)]
enum Length {
    /// Exactly so many.
    Exactly(u8),
    /// Any number of units of so many bytes, at least so many bytes.
    Units(u8, u8),
}

impl Length {
    fn allows(self, bytes: usize) -> bool
        ensures { result ≡ fits_length (length_of self) bytes }
    {
        match self {
            Exactly(size) => bytes == usize::from(size),
            Units(size, least) => usize::from(least) <= bytes
                && bytes.is_multiple_of(usize::from(size)),
        }
    }
}

/// The data that a type can have.
#[derive(Clone, Copy, Debug, PartialEq, Eq)]
struct Data(Form, Length);

/// By the type's number; none of one that the format does not use.
const DATA: [Option<Data>; 60] = [
    Some(Data(TwoByte, Exactly(2))), // HEADER
    Some(Data(TwoByte, Exactly(24))), // BGNLIB
    Some(Data(AsciiText, Units(1, 0))), // LIBNAME
    Some(Data(EightByteReal, Exactly(16))), // UNITS
    Some(Data(NoData, Exactly(0))), // ENDLIB
    Some(Data(TwoByte, Exactly(24))), // BGNSTR
    Some(Data(AsciiText, Units(1, 0))), // STRNAME
    Some(Data(NoData, Exactly(0))), // ENDSTR
    Some(Data(NoData, Exactly(0))), // BOUNDARY
    Some(Data(NoData, Exactly(0))), // PATH
    Some(Data(NoData, Exactly(0))), // SREF
    Some(Data(NoData, Exactly(0))), // AREF
    Some(Data(NoData, Exactly(0))), // TEXT
    Some(Data(TwoByte, Exactly(2))), // LAYER
    Some(Data(TwoByte, Exactly(2))), // DATATYPE
    Some(Data(FourByte, Exactly(4))), // WIDTH
    Some(Data(FourByte, Units(8, 0))), // XY
    Some(Data(NoData, Exactly(0))), // ENDEL
    Some(Data(AsciiText, Units(1, 0))), // SNAME
    Some(Data(TwoByte, Exactly(4))), // COLROW
    None,
    Some(Data(NoData, Exactly(0))), // NODE
    Some(Data(TwoByte, Exactly(2))), // TEXTTYPE
    Some(Data(BitArray, Exactly(2))), // PRESENTATION
    None,
    Some(Data(AsciiText, Units(1, 0))), // STRING
    Some(Data(BitArray, Exactly(2))), // STRANS
    Some(Data(EightByteReal, Exactly(8))), // MAG
    Some(Data(EightByteReal, Exactly(8))), // ANGLE
    None,
    None,
    Some(Data(AsciiText, Units(1, 0))), // REFLIBS
    Some(Data(AsciiText, Units(1, 0))), // FONTS
    Some(Data(TwoByte, Exactly(2))), // PATHTYPE
    Some(Data(TwoByte, Exactly(2))), // GENERATIONS
    Some(Data(AsciiText, Units(1, 0))), // ATTRTABLE
    None,
    None,
    Some(Data(BitArray, Exactly(2))), // ELFLAGS
    None,
    None,
    None,
    Some(Data(TwoByte, Exactly(2))), // NODETYPE
    Some(Data(TwoByte, Exactly(2))), // PROPATTR
    Some(Data(AsciiText, Units(1, 0))), // PROPVALUE
    Some(Data(NoData, Exactly(0))), // BOX
    Some(Data(TwoByte, Exactly(2))), // BOXTYPE
    Some(Data(FourByte, Exactly(4))), // PLEX
    Some(Data(FourByte, Exactly(4))), // BGNEXTN
    Some(Data(FourByte, Exactly(4))), // ENDEXTN
    None,
    None,
    Some(Data(BitArray, Exactly(2))), // STRCLASS
    None,
    Some(Data(TwoByte, Exactly(2))), // FORMAT
    Some(Data(AsciiText, Units(1, 0))), // MASK
    Some(Data(NoData, Exactly(0))), // ENDMASKS
    Some(Data(TwoByte, Exactly(2))), // LIBDIRSIZE
    Some(Data(AsciiText, Units(1, 0))), // SRFNAME
    Some(Data(TwoByte, Units(6, 6))), // LIBSECUR
];

// The data that a type can have, if the format uses it.
fn data_of(kind: u8) -> Option<Data>
    ensures fits_as { (byte length : ℕ) → fits_data result byte length ≡ fits kind byte length }
    ensures used { is_some result ≡ known kind }
{
    *DATA.get(usize::from(kind))?
}

// Whether a record of a type can have data of a data-type byte and a length.
fn fits(kind: u8, byte: u8, length: usize) -> bool
    ensures { result ≡ fits kind byte length }
{
    data_of(kind).is_some_and(|Data(form, lengths)| form as u8 == byte && lengths.allows(length))
}

// ---- How a type is treated

/// What is done with a record of a type.
#[derive(Clone, Copy, Debug, PartialEq, Eq)]
pub enum Treatment {
    /// The stream ends.
    End,
    /// The name of a structure is read.
    Name,
    /// A structure ends.
    Leave,
    /// A path or a reference is met.
    Refer,
    /// The layer of an element is read.
    Layer,
    /// The vertices of an element are read.
    Vertices,
    /// The format does not use the type.
    Unknown,
    /// Any other is passed over.
    Skip,
}

/// How a type is treated, by its number.
pub fn treatment_of(kind: u8) -> Treatment
    ensures { result ≡ treatment_of kind }
{
    match kind {
        ENDLIB => Treatment::End,
        STRNAME => Treatment::Name,
        ENDSTR => Treatment::Leave,
        PATH..=AREF => Treatment::Refer,
        LAYER => Treatment::Layer,
        XY => Treatment::Vertices,
        // Between types that the format uses, and past the last of them.
        20 | 24 | 29 | 30 | 36 | 37 | 39 | 40 | 41 | 50 | 51 | 53 => Treatment::Unknown,
        60..=255 => Treatment::Unknown,
        _ => Treatment::Skip,
    }
}

// ---- One record

/// A record's head: its length, its type and its data-type byte.
#[derive(Clone, Copy, Debug, PartialEq, Eq)]
struct Head {
    size: usize,
    kind: u8,
    form: u8,
}

/// A good record, where the format's order stands at a row: its length, its type and the row that it leads to.
#[derive(Clone, Copy, Debug, PartialEq, Eq)]
pub struct Record {
    pub size: usize,
    pub kind: u8,
    pub next: u8,
}

/// The least length of a record: that of its head.
pub const HEAD: usize = 4;

// The head of the record that bytes begin with; TRUNCATED where they end in it, and RECORD where its length is bad.
fn head_of(rest: &[u8]) -> Result<Head, Reason>
    ensures { result ≡ head_of rest.now }
{
    if rest.len() < HEAD {
        return Err(Reason::Truncated);
    }
    let size = usize::from(u16::read(rest, 0));
    if rest.len() < size {
        return Err(Reason::Truncated);
    }
    if size % 2 != 0 || size < HEAD {
        return Err(Reason::Record);
    }
    Ok(Head {
        size,
        kind: rest[2],
        form: rest[3],
    })
}

/// The record that bytes begin with, where the order stands at a row.
pub fn record_of(rest: &[u8], row: u8) -> Result<Record, Reason>
    ensures { result ≡ record_of row rest.now }
{
    let Head { size, kind, form } = head_of(rest)?;
    if !fits(kind, form, size - HEAD) {
        return Err(Reason::Record);
    }
    let next = follow(row, kind).ok_or(Reason::Record)?;
    Ok(Record { size, kind, next })
}
