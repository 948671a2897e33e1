// The names of properties: `title` is PIDSI_TITLE of [MS-OLEPS], `category` PIDDSI_CATEGORY of [MS-OSHARED].
use crate::sections::Section;

/// The name of a property of a section, where the standard has one.
pub(crate) fn standard_key(section: Section, id: u32) -> Option<&'static str> {
    match section {
        Section::Summary => summary_key(id),
        Section::Document => document_key(id),
        Section::User => None,
    }
}

/// [MS-OLEPS] SummaryInformation.
fn summary_key(id: u32) -> Option<&'static str> {
    match id {
        2 => Some("title"),
        3 => Some("subject"),
        4 => Some("author"),
        5 => Some("keywords"),
        6 => Some("comments"),
        7 => Some("template"),
        8 => Some("last-author"),
        9 => Some("revision"),
        10 => Some("edit-time"),
        11 => Some("last-printed"),
        12 => Some("created"),
        13 => Some("last-saved"),
        14 => Some("pages"),
        15 => Some("words"),
        16 => Some("characters"),
        17 => Some("thumbnail"),
        18 => Some("application"),
        19 => Some("security"),
        _ => None,
    }
}

/// [MS-OSHARED] DocumentSummaryInformation: properties of texts and numbers.
fn document_key(id: u32) -> Option<&'static str> {
    match id {
        2 => Some("category"),
        3 => Some("presentation-format"),
        4 => Some("bytes"),
        5 => Some("lines"),
        6 => Some("paragraphs"),
        7 => Some("slides"),
        8 => Some("notes"),
        9 => Some("hidden-slides"),
        10 => Some("multimedia-clips"),
        11 => Some("scale"),
        12 => Some("heading-pairs"),
        13 => Some("document-parts"),
        _ => later_document_key(id),
    }
}

/// The name of a property of links and programs.
fn later_document_key(id: u32) -> Option<&'static str> {
    match id {
        14 => Some("manager"),
        15 => Some("company"),
        16 => Some("links-dirty"),
        17 => Some("characters-with-spaces"),
        19 => Some("shared-document"),
        20 => Some("link-base"),
        21 => Some("hyperlinks"),
        22 => Some("hyperlinks-changed"),
        23 => Some("version"),
        24 => Some("digital-signature"),
        26 => Some("content-type"),
        27 => Some("content-status"),
        28 => Some("language"),
        29 => Some("document-version"),
        _ => None,
    }
}

/// [MS-OLEPS] The names of properties that each section has.
pub(crate) fn common_key(id: u32) -> Option<&'static str> {
    match id {
        1 => Some("codepage"),
        0x8000_0000 => Some("locale"),
        0x8000_0003 => Some("behavior"),
        _ => None,
    }
}
