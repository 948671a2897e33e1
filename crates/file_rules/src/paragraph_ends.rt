// The search for the units that end a paragraph: the ends of sections are met in their order, and no list of them is
// made.
ghost use Rattle.std.specs.Prelude.{◌≡◌, ◌<◌, ◌≤◌, ⊤, length, MatchOption};
ghost use Rattle.doc_bits.specs.Rules.{LeastOrNone};
ghost use Rattle.file_rules.specs.EndSearch.{AreSectionsInOrder, BeginUpTo, IsSoIn, IsNextEnd, IsStretchEnd, ends_at};

use doc_parts::Seds;
use text_codes::{bare_len, ends_paragraph};

/// The ends of sections: those of the sections before number `met` are met.
#[derive(Drop)]
pub(crate) struct SectionEnds<'a> {
    pub(crate) sections: &'a Seds,
    pub(crate) main_len: usize,
    pub(crate) met: usize,
}

impl<'a> SectionEnds<'a> {
    /// The least CP behind one of the main text before which a section ends.
    fn behind(&mut self, cp: usize) -> usize
        requires order { AreSectionsInOrder self.old.sections.now self.old.main_len }
        requires met { BeginUpTo self.old.sections.now self.old.met cp }
        requires main { cp < self.old.main_len }
        ensures next { IsNextEnd self.old.sections.now self.old.main_len cp result }

        // It goes on from there.
        ensures met { BeginUpTo self.new.sections.now self.new.met cp }
        ensures sections { self.new.sections.now ≡ self.old.sections.now }
        ensures main { self.new.main_len ≡ self.old.main_len }
    {
        while self.met < self.sections.len() {
            let (start, _) = self.sections.get(self.met);
            if start as usize > cp {
                return start as usize;
            }
            self.met += 1;
        }
        self.main_len
    }

    /// Where the stretch of the units from a CP on ends: with a section, or behind the main text with the last unit.
    fn stretch_end(&mut self, cp: usize, len: usize) -> usize
        requires order { AreSectionsInOrder self.old.sections.now self.old.main_len }
        requires met { BeginUpTo self.old.sections.now self.old.met cp }
        requires main { self.old.main_len ≤ len }
        requires within { cp < len }
        ensures behind { cp < result }
        ensures within { result ≤ len }
        ensures end { IsStretchEnd self.old.sections.now self.old.main_len len cp result }
        ensures met { BeginUpTo self.new.sections.now self.new.met cp }
        ensures sections { self.new.sections.now ≡ self.old.sections.now }
        ensures main { self.new.main_len ≡ self.old.main_len }
    {
        if cp < self.main_len {
            self.behind(cp)
        } else {
            len
        }
    }
}

/// The first CP from `from` on whose unit ends a paragraph.
pub(crate) fn next_end(units: &[u16], ends: &mut SectionEnds<'_>, from: usize) -> Option<usize>
    requires order { AreSectionsInOrder ends.old.sections.now ends.old.main_len }
    requires met { BeginUpTo ends.old.sections.now ends.old.met from }
    requires main { ends.old.main_len ≤ length units.now }
    requires from { from ≤ length units.now }
    ensures first { LeastOrNone
        (IsSoIn (ends_at units.now ends.old.sections.now ends.old.main_len) from (length units.now)) result }
    ensures met { MatchOption result ⊤ (λ at. BeginUpTo ends.new.sections.now ends.new.met at) }
    ensures sections { ends.new.sections.now ≡ ends.old.sections.now }
    ensures main { ends.new.main_len ≡ ends.old.main_len }
{
    let mut cp = from;
    while cp < units.len() {
        let in_main = cp < ends.main_len;
        let stop = ends.stretch_end(cp, units.len());
        // With the last unit of a stretch of the main text a section ends; those before it end no section.
        let at = (cp + bare_len(&units[cp..stop])).min(stop - 1);
        if ends_paragraph(units[at], in_main) {
            return Some(at);
        }
        cp = stop;
    }
    None
}
