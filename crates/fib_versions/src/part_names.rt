// [MS-DOC] FibRgFcLcb97 to FibRgFcLcb2007: the parts of the table stream by the standard's names.
ghost use Rattle.std.specs.Prelude.{◌≡◌, ◌<◌, ◌≤◌};
ghost use Rattle.fib_versions.specs.PartNames.{name_of_part};

/// The name of the part of pair `n`, or `Unknown` where no program up to Word 2007 has such a pair.
pub fn part_name(n: usize) -> &'static str
    ensures { result.now ≡ name_of_part n }
{
    if n < 16 {
        names_from_0(n)
    } else if n < 32 {
        names_from_16(n)
    } else if n < 48 {
        names_from_32(n)
    } else if n < 64 {
        names_from_48(n)
    } else if n < 80 {
        names_from_64(n)
    } else if n < 96 {
        names_from_80(n)
    } else if n < 112 {
        names_from_96(n)
    } else if n < 128 {
        names_from_112(n)
    } else if n < 144 {
        names_from_128(n)
    } else if n < 160 {
        names_from_144(n)
    } else if n < 176 {
        names_from_160(n)
    } else if n < 183 {
        names_from_176(n)
    } else {
        "Unknown"
    }
}

/// The names of the pairs 0 to 15.
fn names_from_0(n: usize) -> &'static str
    requires { n < 16 }
    ensures { result.now ≡ name_of_part n }
{
    match n {
        0 => "StshfOrig",
        1 => "Stshf",
        2 => "PlcffndRef",
        3 => "PlcffndTxt",
        4 => "PlcfandRef",
        5 => "PlcfandTxt",
        6 => "PlcfSed",
        7 => "PlcPad",
        8 => "PlcfPhe",
        9 => "SttbfGlsy",
        10 => "PlcfGlsy",
        11 => "PlcfHdd",
        12 => "PlcfBteChpx",
        13 => "PlcfBtePapx",
        14 => "PlcfSea",
        _ => "SttbfFfn",
    }
}

/// The names of the pairs 16 to 31.
fn names_from_16(n: usize) -> &'static str
    requires from { 16 ≤ n }
    requires to { n < 32 }
    ensures { result.now ≡ name_of_part n }
{
    match n {
        16 => "PlcfFldMom",
        17 => "PlcfFldHdr",
        18 => "PlcfFldFtn",
        19 => "PlcfFldAtn",
        20 => "PlcfFldMcr",
        21 => "SttbfBkmk",
        22 => "PlcfBkf",
        23 => "PlcfBkl",
        24 => "Cmds",
        25 => "Unused1",
        26 => "SttbfMcr",
        27 => "PrDrvr",
        28 => "PrEnvPort",
        29 => "PrEnvLand",
        30 => "Wss",
        _ => "Dop",
    }
}

/// The names of the pairs 32 to 47.
fn names_from_32(n: usize) -> &'static str
    requires from { 32 ≤ n }
    requires to { n < 48 }
    ensures { result.now ≡ name_of_part n }
{
    match n {
        32 => "SttbfAssoc",
        33 => "Clx",
        34 => "PlcfPgdFtn",
        35 => "AutosaveSource",
        36 => "GrpXstAtnOwners",
        37 => "SttbfAtnBkmk",
        38 => "Unused2",
        39 => "Unused3",
        40 => "PlcSpaMom",
        41 => "PlcSpaHdr",
        42 => "PlcfAtnBkf",
        43 => "PlcfAtnBkl",
        44 => "Pms",
        45 => "FormFldSttbs",
        46 => "PlcfendRef",
        _ => "PlcfendTxt",
    }
}

/// The names of the pairs 48 to 63.
fn names_from_48(n: usize) -> &'static str
    requires from { 48 ≤ n }
    requires to { n < 64 }
    ensures { result.now ≡ name_of_part n }
{
    match n {
        48 => "PlcfFldEdn",
        49 => "Unused4",
        50 => "DggInfo",
        51 => "SttbfRMark",
        52 => "SttbfCaption",
        53 => "SttbfAutoCaption",
        54 => "PlcfWkb",
        55 => "PlcfSpl",
        56 => "PlcftxbxTxt",
        57 => "PlcfFldTxbx",
        58 => "PlcfHdrtxbxTxt",
        59 => "PlcffldHdrTxbx",
        60 => "StwUser",
        61 => "SttbTtmbd",
        62 => "CookieData",
        _ => "PgdMotherOldOld",
    }
}

/// The names of the pairs 64 to 79.
fn names_from_64(n: usize) -> &'static str
    requires from { 64 ≤ n }
    requires to { n < 80 }
    ensures { result.now ≡ name_of_part n }
{
    match n {
        64 => "BkdMotherOldOld",
        65 => "PgdFtnOldOld",
        66 => "BkdFtnOldOld",
        67 => "PgdEdnOldOld",
        68 => "BkdEdnOldOld",
        69 => "SttbfIntlFld",
        70 => "RouteSlip",
        71 => "SttbSavedBy",
        72 => "SttbFnm",
        73 => "PlfLst",
        74 => "PlfLfo",
        75 => "PlcfTxbxBkd",
        76 => "PlcfTxbxHdrBkd",
        77 => "DocUndoWord9",
        78 => "RgbUse",
        _ => "Usp",
    }
}

/// The names of the pairs 80 to 95.
fn names_from_80(n: usize) -> &'static str
    requires from { 80 ≤ n }
    requires to { n < 96 }
    ensures { result.now ≡ name_of_part n }
{
    match n {
        80 => "Uskf",
        81 => "PlcupcRgbUse",
        82 => "PlcupcUsp",
        83 => "SttbGlsyStyle",
        84 => "Plgosl",
        85 => "Plcocx",
        86 => "PlcfBteLvc",
        87 => "DateTime",
        88 => "PlcfLvcPre10",
        89 => "PlcfAsumy",
        90 => "PlcfGram",
        91 => "SttbListNames",
        92 => "SttbfUssr",
        93 => "PlcfTch",
        94 => "RmdThreading",
        _ => "Mid",
    }
}

/// The names of the pairs 96 to 111.
fn names_from_96(n: usize) -> &'static str
    requires from { 96 ≤ n }
    requires to { n < 112 }
    ensures { result.now ≡ name_of_part n }
{
    match n {
        96 => "SttbRgtplc",
        97 => "MsoEnvelope",
        98 => "PlcfLad",
        99 => "RgDofr",
        100 => "Plcosl",
        101 => "PlcfCookieOld",
        102 => "PgdMotherOld",
        103 => "BkdMotherOld",
        104 => "PgdFtnOld",
        105 => "BkdFtnOld",
        106 => "PgdEdnOld",
        107 => "BkdEdnOld",
        108 => "Unused1",
        109 => "PlcfPgp",
        110 => "Plcfuim",
        _ => "PlfguidUim",
    }
}

/// The names of the pairs 112 to 127.
fn names_from_112(n: usize) -> &'static str
    requires from { 112 ≤ n }
    requires to { n < 128 }
    ensures { result.now ≡ name_of_part n }
{
    match n {
        112 => "AtrdExtra",
        113 => "Plrsid",
        114 => "SttbfBkmkFactoid",
        115 => "PlcfBkfFactoid",
        116 => "Plcfcookie",
        117 => "PlcfBklFactoid",
        118 => "FactoidData",
        119 => "DocUndo",
        120 => "SttbfBkmkFcc",
        121 => "PlcfBkfFcc",
        122 => "PlcfBklFcc",
        123 => "SttbfbkmkBPRepairs",
        124 => "PlcfbkfBPRepairs",
        125 => "PlcfbklBPRepairs",
        126 => "PmsNew",
        _ => "ODSO",
    }
}

/// The names of the pairs 128 to 143.
fn names_from_128(n: usize) -> &'static str
    requires from { 128 ≤ n }
    requires to { n < 144 }
    ensures { result.now ≡ name_of_part n }
{
    match n {
        128 => "PlcfpmiOldXP",
        129 => "PlcfpmiNewXP",
        130 => "PlcfpmiMixedXP",
        131 => "Unused2",
        132 => "Plcffactoid",
        133 => "PlcflvcOldXP",
        134 => "PlcflvcNewXP",
        135 => "PlcflvcMixedXP",
        136 => "Hplxsdr",
        137 => "SttbfBkmkSdt",
        138 => "PlcfBkfSdt",
        139 => "PlcfBklSdt",
        140 => "CustomXForm",
        141 => "SttbfBkmkProt",
        142 => "PlcfBkfProt",
        _ => "PlcfBklProt",
    }
}

/// The names of the pairs 144 to 159.
fn names_from_144(n: usize) -> &'static str
    requires from { 144 ≤ n }
    requires to { n < 160 }
    ensures { result.now ≡ name_of_part n }
{
    match n {
        144 => "SttbProtUser",
        145 => "Unused",
        146 => "PlcfpmiOld",
        147 => "PlcfpmiOldInline",
        148 => "PlcfpmiNew",
        149 => "PlcfpmiNewInline",
        150 => "PlcflvcOld",
        151 => "PlcflvcOldInline",
        152 => "PlcflvcNew",
        153 => "PlcflvcNewInline",
        154 => "PgdMother",
        155 => "BkdMother",
        156 => "AfdMother",
        157 => "PgdFtn",
        158 => "BkdFtn",
        _ => "AfdFtn",
    }
}

/// The names of the pairs 160 to 175.
fn names_from_160(n: usize) -> &'static str
    requires from { 160 ≤ n }
    requires to { n < 176 }
    ensures { result.now ≡ name_of_part n }
{
    match n {
        160 => "PgdEdn",
        161 => "BkdEdn",
        162 => "AfdEdn",
        163 => "Afd",
        164 => "Plcfmthd",
        165 => "SttbfBkmkMoveFrom",
        166 => "PlcfBkfMoveFrom",
        167 => "PlcfBklMoveFrom",
        168 => "SttbfBkmkMoveTo",
        169 => "PlcfBkfMoveTo",
        170 => "PlcfBklMoveTo",
        171 => "Unused1",
        172 => "Unused2",
        173 => "Unused3",
        174 => "SttbfBkmkArto",
        _ => "PlcfBkfArto",
    }
}

/// The names of the pairs 176 to 182.
fn names_from_176(n: usize) -> &'static str
    requires from { 176 ≤ n }
    requires to { n < 183 }
    ensures { result.now ≡ name_of_part n }
{
    match n {
        176 => "PlcfBklArto",
        177 => "ArtoData",
        178 => "Unused4",
        179 => "Unused5",
        180 => "Unused6",
        181 => "OssTheme",
        _ => "ColorSchemeMapping",
    }
}
