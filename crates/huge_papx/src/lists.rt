// The last sprm of a kind in a list.
ghost use Rattle.std.specs.Prelude.{◌≡◌, ℕ, List, [], ◌∷◌, MatchOption, option_map};
ghost use Rattle.std.specs.Option.{option_or};
ghost use Rattle.sprm_table.specs.Sprm.{Prl, SpellsSprmList, IsAcceptedList};
ghost use Rattle.huge_papx.specs.Lists.{HasLastValue, is_sought as is_code_sought, last_value as last_of};

use sprm_table::{Code, SPRM_P_F_TTP, SPRM_T_DEF_TABLE, SprmIter, list_fault};

/// [MS-DOC] sprmPHugePapx, and the code of it that early programs wrote.
const HUGE_PAPX: Code = Code(0x6646);

const EARLY_HUGE_PAPX: Code = Code(0x6645);

/// What is looked for in a list.
#[derive(Clone, Copy)]
pub(crate) enum Sought {
    /// Where the properties are, in `Data`.
    HugePapx,
    /// Whether the mark ends a row.
    RowEnd,
    /// The cells of the row.
    Definition,
}

/// The value that the last such sprm of a list has. One that is cut short has none.
pub(crate) fn last_value(list: &[u8], sought: Sought) -> Option<&[u8]>
    ensures { MatchOption result
        ((value : List ℕ) → ¬ HasLastValue sought list.now value)
        (λ value. HasLastValue sought list.now value.now) }
{
    match list_fault(list, 0) {
        None => value_of_last(list, sought),
        Some(_) => None,
    }
}

/// The value that the last such sprm has in a list that is not cut short.
fn value_of_last(list: &[u8], sought: Sought) -> Option<&[u8]>
    requires { IsAcceptedList list.now 0 }
    ensures { (prls : List Prl) → SpellsSprmList list.now prls →
        option_map (λ value. value.now) result ≡ last_of sought prls }
{
    let mut last = None;
    let mut prls = SprmIter::new(list);
    while let Some((code, from, to)) = prls.next() {
        last = after_sprm(sought, code, &list[from..to], last);
    }
    last
}

/// The value of a sprm, where it is such a one, or else the value before it.
fn after_sprm<'a>(
    sought: Sought,
    code: Code,
    value: &'a [u8],
    before: Option<&'a [u8]>,
) -> Option<&'a [u8]>
    ensures { option_map (λ last. last.now) result
        ≡ option_or (last_of sought ((code.0, value.now) ∷ [])) (option_map (λ last. last.now) before.entry) }
{
    if is_sought(sought, code) {
        Some(value)
    } else {
        before
    }
}

/// Whether a code is such a one.
fn is_sought(sought: Sought, code: Code) -> bool
    ensures { result ≡ is_code_sought sought code.0 }
{
    match sought {
        Sought::HugePapx => code == HUGE_PAPX || code == EARLY_HUGE_PAPX,
        Sought::RowEnd => code == SPRM_P_F_TTP,
        Sought::Definition => code == SPRM_T_DEF_TABLE,
    }
}
