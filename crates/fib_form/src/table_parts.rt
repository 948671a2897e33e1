// [MS-DOC] FibRgFcLcb97: the parts of the table stream, by the standard's names.
ghost use Rattle.std.specs.Prelude.{◌≡◌, ◌<◌};
ghost use Rattle.fib_form.specs.Fib.{kept_pairs};
ghost use Rattle.fib_form.specs.TableParts.{pair_number};

/// A part of the table stream that is read, or carried unread.
#[derive(Clone, Copy)]
pub enum TablePart {
    Stshf,
    PlcffndRef,
    PlcffndTxt,
    PlcfSed,
    PlcfHdd,
    PlcfBteChpx,
    PlcfBtePapx,
    SttbfFfn,
    PlcfFldMom,
    PlcfFldHdr,
    PlcfFldFtn,
    SttbfBkmk,
    PlcfBkf,
    PlcfBkl,
    Dop,
    SttbfAssoc,
    Clx,
    PlfLst,
    PlfLfo,
}

impl TablePart {
    /// The number of its pair in the FIB.
    pub fn pair(self) -> usize
        ensures number { result ≡ pair_number self }
        ensures below { result < kept_pairs }
    {
        match self {
            TablePart::Stshf => 1,
            TablePart::PlcffndRef => 2,
            TablePart::PlcffndTxt => 3,
            TablePart::PlcfSed => 6,
            TablePart::PlcfHdd => 11,
            TablePart::PlcfBteChpx => 12,
            TablePart::PlcfBtePapx => 13,
            TablePart::SttbfFfn => 15,
            TablePart::PlcfFldMom => 16,
            TablePart::PlcfFldHdr => 17,
            TablePart::PlcfFldFtn => 18,
            TablePart::SttbfBkmk => 21,
            TablePart::PlcfBkf => 22,
            TablePart::PlcfBkl => 23,
            TablePart::Dop => 31,
            TablePart::SttbfAssoc => 32,
            TablePart::Clx => 33,
            TablePart::PlfLst => 73,
            TablePart::PlfLfo => 74,
        }
    }
}
