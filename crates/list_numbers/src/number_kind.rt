// [MS-DOC] nfc: how a number is written.
ghost use Rattle.std.specs.Prelude.{◌≡◌};
ghost use Rattle.list_numbers.specs.NumberKind.{kind_of_nfc};

/// The case of letters.
#[derive(Clone, Copy)]
pub(crate) enum LetterCase {
    Upper,
    Lower,
}

/// How a number is written.
#[derive(Clone, Copy)]
pub(crate) enum NumberKind {
    Decimal,
    Roman(LetterCase),
    Letters(LetterCase),
    /// A bullet: the text of the level as it is.
    Bullet,
    /// No number.
    Nothing,
}

impl NumberKind {
    /// The kind with a number of [MS-DOC] MSONFC. All that are not named here are decimal.
    pub(crate) fn of(nfc: u8) -> NumberKind
        ensures { result ≡ kind_of_nfc nfc }
    {
        match nfc {
            1 => NumberKind::Roman(LetterCase::Upper),
            2 => NumberKind::Roman(LetterCase::Lower),
            3 => NumberKind::Letters(LetterCase::Upper),
            4 => NumberKind::Letters(LetterCase::Lower),
            23 => NumberKind::Bullet,
            255 => NumberKind::Nothing,
            _ => NumberKind::Decimal,
        }
    }
}
