//! Refusals.

ghost use Rattle.std.specs.Prelude.{◌≡◌, Some};
ghost use Rattle.common.specs.Errors.{number_of, Named};
ghost use Rattle.common.specs.Refusals.{refusal_text};
ghost use Rattle.common.specs.declared.error.Error.TheVariants.{ValueTooLarge};

use std::fmt;
use std::num::TryFromIntError;

/// Why a call was refused. `docs/RULES.md` says which call refuses when.
#[derive(Clone, Copy, PartialEq, Eq, Debug)]
pub enum Error {
    /// The value is too large for the encoding form.
    ValueTooLarge,
    /// The word size, which is given, is not one that can be written.
    UnsupportedWordSize(u8),
    /// The address is a symbol, which this writer cannot resolve.
    InvalidAddress,
    /// The reference is a symbol, or an entry where no references are kept.
    InvalidReference,
    /// An operand needs the offset of an entry that is not placed yet.
    UnsupportedExpressionForwardReference,
    /// A frame expression names an entry of a unit.
    UnsupportedCfiExpressionReference,
    /// The offset is past the end of what was written.
    OffsetOutOfBounds,
    /// The bytes run past the end of what was written.
    LengthOutOfBounds,
    /// The bytes exceed what the sink still takes.
    NoRoom,
    /// More references would be pending than the section keeps.
    TooManyReferences,
    /// The section has as many units as it keeps.
    TooManyUnits,
    /// No unit has begun.
    NoUnit,
    /// There is no entry or unit of that number.
    BadEntry,
    /// The entry has been placed in this unit.
    AlreadyPlaced,
    /// Nothing has been written since the unit began.
    AtUnitStart,
    /// The entry that a reference names is not placed.
    NotPlaced,
    /// No pending reference begins at that offset.
    NotPending,
    /// References are still pending.
    StillPending,
    /// The book's tables have no place left.
    BookFull,
    /// No draft is open, or one is open already.
    DraftState,
    /// The branch or its target is not one of the draft's.
    BadTarget,
    /// A branch has no target.
    BranchOpen,
    /// The book has no expression of that number.
    NoExpression,
    /// The expression is nested already.
    InUse,
    /// Expressions would be nested too deeply.
    TooDeep,
}

/// A number that does not fit the narrower type is too large.
impl From<TryFromIntError> for Error {
    ghost from_gives = { λ _ e. e ≡ ValueTooLarge };

    fn from(_error: TryFromIntError) -> Error {
        Error::ValueTooLarge
    }
}

impl Error {
    /// The refusal's number.
    pub fn number(self) -> u8
        ensures { result ≡ number_of self }
    {
        match self {
            Error::ValueTooLarge => 1,
            Error::UnsupportedWordSize(_) => 2,
            Error::InvalidAddress => 3,
            Error::InvalidReference => 4,
            Error::UnsupportedExpressionForwardReference => 5,
            Error::UnsupportedCfiExpressionReference => 6,
            Error::OffsetOutOfBounds => 7,
            Error::LengthOutOfBounds => 8,
            Error::NoRoom => 9,
            Error::TooManyReferences => 10,
            Error::TooManyUnits => 11,
            Error::NoUnit => 12,
            Error::BadEntry => 13,
            Error::AlreadyPlaced => 14,
            Error::AtUnitStart => 15,
            Error::NotPlaced => 16,
            Error::NotPending => 17,
            Error::StillPending => 18,
            Error::BookFull => 19,
            Error::DraftState => 20,
            Error::BadTarget => 21,
            Error::BranchOpen => 22,
            Error::NoExpression => 23,
            Error::InUse => 24,
            Error::TooDeep => 25,
        }
    }

    /// The refusal's name.
    pub fn name(self) -> &'static str
        ensures { Named self result.now }
    {
        match self {
            Error::ValueTooLarge => "ValueTooLarge",
            Error::UnsupportedWordSize(_) => "UnsupportedWordSize",
            Error::InvalidAddress => "InvalidAddress",
            Error::InvalidReference => "InvalidReference",
            Error::UnsupportedExpressionForwardReference => "UnsupportedExpressionForwardReference",
            Error::UnsupportedCfiExpressionReference => "UnsupportedCfiExpressionReference",
            Error::OffsetOutOfBounds => "OffsetOutOfBounds",
            Error::LengthOutOfBounds => "LengthOutOfBounds",
            Error::NoRoom => "NoRoom",
            Error::TooManyReferences => "TooManyReferences",
            Error::TooManyUnits => "TooManyUnits",
            Error::NoUnit => "NoUnit",
            Error::BadEntry => "BadEntry",
            Error::AlreadyPlaced => "AlreadyPlaced",
            Error::AtUnitStart => "AtUnitStart",
            Error::NotPlaced => "NotPlaced",
            Error::NotPending => "NotPending",
            Error::StillPending => "StillPending",
            Error::BookFull => "BookFull",
            Error::DraftState => "DraftState",
            Error::BadTarget => "BadTarget",
            Error::BranchOpen => "BranchOpen",
            Error::NoExpression => "NoExpression",
            Error::InUse => "InUse",
            Error::TooDeep => "TooDeep",
        }
    }
}

/// The number and the name; refusal 2 is followed by the size that was met.
impl fmt::Display for Error {
    ghost output = { λ e. Some (refusal_text e) };

    fn fmt<W: fmt::Write>(&self, f: &mut fmt::Formatter<W>) -> fmt::Result {
        let number = self.number();
        let name = self.name();
        match self {
            Error::UnsupportedWordSize(size) => write!(f, "{number} {name} {size}"),
            _ => write!(f, "{number} {name}"),
        }
    }
}

impl std::error::Error for Error {}
