ghost use Rattle.std.specs.Prelude.{◌≡◌, MatchOption};
ghost use Rattle.sprm_table.specs.Operands.{size_of, fixed_operand_len, counted, IsOperandAt, HasNoOperand};

use crate::Code;
use doc_bits::get16;

// sprmTDefTable
const TDEFTABLE: u16 = 0xD608;

/// How many bytes an operand's value has. A count is no part of the value.
#[derive(Clone, Copy)]
pub enum OperandSize {
    /// So many.
    Fixed(usize),
    /// As many as the byte before it says.
    CountedByByte,
    /// One less than the 16-bit number before it says.
    CountedByWord,
}

/// The size of a code's operand, by its spra; sprmTDefTable has one of its own.
pub fn operand_size(code: Code) -> OperandSize
    ensures { result ≡ size_of code.0 }
{
    let len = fixed_len(code);
    if len == 0 {
        return counted_size(code);
    }
    OperandSize::Fixed(len as usize)
}

/// By the spra of a code, how many bytes its operand has; 0 where they are counted.
fn fixed_len(code: Code) -> u8
    ensures { result ≡ fixed_operand_len code.0 }
{
    match code.0 >> 13 {
        0 | 1 => 1,
        2 | 4 | 5 => 2,
        3 => 4,
        6 => 0,
        _ => 3,
    }
}

/// The size of an operand that is counted.
fn counted_size(code: Code) -> OperandSize
    ensures { result ≡ counted code.0 }
{
    if code.0 == TDEFTABLE {
        return OperandSize::CountedByWord;
    }
    OperandSize::CountedByByte
}

/// Where the value of a code's operand begins and ends in the bytes after the code. None where they
/// are too few.
pub fn operand(code: Code, rest: &[u8]) -> Option<(usize, usize)>
    ensures { MatchOption result
        (HasNoOperand (size_of code.0) rest.now)
        (λ range. IsOperandAt (size_of code.0) rest.now range.0 range.1) }
{
    value_range(operand_size(code), rest)
}

/// Where the value of an operand of this size begins and ends in the bytes after its code.
fn value_range(size: OperandSize, rest: &[u8]) -> Option<(usize, usize)>
    ensures { MatchOption result
        (HasNoOperand size rest.now)
        (λ range. IsOperandAt size rest.now range.0 range.1) }
{
    match size {
        OperandSize::Fixed(len) => {
            if rest.len() < len {
                return None;
            }
            Some((0, len))
        }
        OperandSize::CountedByByte => {
            if rest.is_empty() || rest.len() - 1 < rest[0] as usize {
                return None;
            }
            Some((1, 1 + rest[0] as usize))
        }
        OperandSize::CountedByWord => {
            if rest.len() < 2 || get16(rest, 0) == 0 {
                return None;
            }
            let len = get16(rest, 0) as usize - 1;
            if rest.len() - 2 < len {
                return None;
            }
            Some((2, 2 + len))
        }
    }
}
