// The bytes of a map and of one entry.
ghost use Rattle.std.specs.Prelude.{◌≡◌, ◌+◌, ◌++◌, ◌<◌, ◌≤◌, ◌^◌, ℕ, List, length, IfOk, OnOk};
ghost use Rattle.sprm_table.specs.Sprm.{IsPrl, spelling};
ghost use Rattle.prop_map.specs.Formed.{IsFormedMap};
ghost use Rattle.prop_map.specs.Printing.{IsPrintOf, printed_list};

use crate::PropMap;
use doc_bits::{Bytes, Memory};
use sprm_table::{Code, OperandSize, operand_size};
use std::alloc::Global;

impl PropMap {
    /// The map as a list of sprms, the codes ascending.
    pub fn print(&self, alloc: Global) -> Result<Bytes, Memory>
        requires { IsFormedMap self.now }
        ensures bytes { IfOk result (λ bytes. bytes ≡ printed_list self.now) }
        ensures print { IfOk result (λ bytes. IsPrintOf self.now bytes) }
    {
        let mut bytes = Bytes::new(alloc);
        self.print_to(&mut bytes)?;
        Ok(bytes)
    }

    /// Appends the map's list.
    pub(crate) fn print_to(&self, bytes: &mut Bytes) -> Result<(), Memory>
        requires { IsFormedMap self.now }
        ensures { OnOk result (bytes.new ≡ bytes.old ++ printed_list self.now) }
    {
        let mut left = self.entries();
        while let Some((code, value)) = left.next() {
            push_prl(bytes, code, value)?;
        }
        Ok(())
    }

    /// How many bytes `print` answers.
    pub fn printed_len(&self) -> u64
        requires { IsFormedMap self.now }
        ensures len { result ≡ length (printed_list self.now) }
        ensures bound { result < 2 ^ 33 }
    {
        self.list_len()
    }
}

/// Appends the bytes of an entry: the code, the count where the operand has one, and the value.
pub(crate) fn push_prl(bytes: &mut Bytes, code: Code, value: &[u8]) -> Result<(), Memory>
    requires { IsPrl (code.0, value.now) }
    ensures { OnOk result (bytes.new ≡ bytes.old ++ spelling (code.0, value.now)) }
{
    bytes.push16(code.0)?;
    match operand_size(code) {
        OperandSize::Fixed(_) => {}
        OperandSize::CountedByByte => bytes.push_all(&[value.len() as u8])?,
        OperandSize::CountedByWord => bytes.push16(value.len() as u16 + 1)?,
    }
    bytes.push_all(value)
}

/// How many bytes a list has before the value of a code: the code, and the count where the operand has one.
pub(crate) fn head_len(code: Code) -> u64
    ensures len { (value : List ℕ) → length (spelling (code.0, value)) ≡ result + length value }
    ensures bound { result ≤ 4 }
{
    match operand_size(code) {
        OperandSize::Fixed(_) => 2,
        OperandSize::CountedByByte => 3,
        OperandSize::CountedByWord => 4,
    }
}
