//! The session: a library and the present text of a design.

ghost use Rattle.std.specs.Prelude.{◌≡◌, ◌+◌, ◌≤◌, ◌<◌, ◌^◌, OnErr, OnOk, IfOk, IfSome, IsOk, Option, length};
ghost use Rattle.std.specs.Io.KnownBytes.{Appends};
ghost use Rattle.counted_devices.specs.Counting.{HasFailed};
ghost use Rattle.counted_devices.specs.Known.{WritesPart};
ghost use Rattle.def_grammar.specs.Records.{read_def};
ghost use Rattle.edit_rules.specs.Edits.{change_of};
ghost use Rattle.edit_rules.specs.Runs.{Answers, design_edit, text_edit};
ghost use Rattle.report_lines.specs.Kinds.{HaveTheirKinds};
ghost use Rattle.std.specs.Option.{option_map};
ghost use Rattle.design_model.specs.Views.{rectangle_of};
ghost use Rattle.design_rules.specs.Boxes.{scale};
ghost use Rattle.lef_grammar.specs.Measures.{place_among};
ghost use Rattle.measure_rules.specs.Density.{cell_density, place_density};
ghost use Rattle.measure_rules.specs.Lengths.{net_length, total_length};
ghost use Rattle.measure_rules.specs.NetBoxes.{net_box};
ghost use Rattle.report_rules.specs.Diagnostics.{diagnostics};
ghost use Rattle.report_rules.specs.Output.{report_lines};
ghost use Rattle.design_text.specs.DesignTexts.{text_of};
ghost use Rattle.design_text.specs.Editing.{KeepsTheRest, ReadsEdited};
ghost use Rattle.design_text.specs.FewReads.{ReadsFew, new_in};
ghost use Rattle.edit_session.specs.Tests.{Subject, TestsFewIn, subject_of};
ghost use Rattle.edit_session.specs.Sessions.{AreDiagnostics, HasParts, Measures, OpensAs, Views};

use crate::change::Change;
use crate::known_lines::KnownLines;
use crate::measures::take_measures;
use crate::noted::Noted;
use crate::report::know_lines;
use crate::view::{View, view_of};
use cell_library::library::Library;
use counted_devices::counted::{CountedWrite, Failures};
use counted_devices::output::WriteFault;
use design_model::diagnostic::DiagLines;
use design_model::fault::ReadError;
use design_model::geometry::Rect;
use design_model::identifier::LayerId;
use design_model::mode::Section;
use design_text::text::DesignText;
use edit_model::edit::{Done, Edit, EditRefusal};
use script_lines::answer::check_text;
use std::alloc::{AllocError, Allocator, Global};
use std::io::Write;
use std::marker::Model;

/// An editor session over the text of a design.
pub struct Session<'s, 'l, A: Allocator + Copy = Global> {
    alloc: A,
    library: &'s Library<'l, A>,
    text: DesignText<A>,
    /// The lines on the present text that are known, and what was measured with them.
    known: KnownLines<A>,
    /// What is noted of the present text, so that lines follow an edit, and what was measured of it.
    noted: Noted<A>,
}

impl<'s, 'l, A: Allocator + Copy> Model for Session<'s, 'l, A> {
    ghost use Rattle.std.specs.Prelude.{IfSome, IsOk};
    ghost use Rattle.def_grammar.specs.Records.{read_def};
    ghost use Rattle.design_text.specs.DesignTexts.{text_of};
    ghost use Rattle.design_text.specs.Exchanges.{records_in};
    ghost use Rattle.edit_session.specs.Contents.{Content};
    ghost use Rattle.edit_session.specs.Known.{AreKnownOf, HasNoted};

    ghost Value = { Content };

    ghost view = { λ s. record { library = s.library.now; text = text_of s.text } };

    ghost invariant = { λ s. IsOk (read_def (text_of s.text)) × AreKnownOf s.library.now (text_of s.text) s.known × HasNoted s.library.now (records_in s.text) s.noted };
}

// (written out, so that who owns a session is proved over one call in the place of all that it keeps)
impl<A: Allocator + Copy> Drop for Session<'_, '_, A> {
    fn drop(self) {
        let Session {
            alloc: _,
            library: _,
            text: _,
            known: _,
            noted: _,
        } = self;
    }
}

impl<'s, 'l, A: Allocator + Copy> Session<'s, 'l, A> {
    /// Opens a session on a copy of a text.
    pub fn open(
        alloc: A,
        library: &'s Library<'l, A>,
        text: &[u8],
    ) -> Result<Session<'s, 'l, A>, ReadError>
        ensures opens { OpensAs text.now result }
        ensures text { IfOk result (λ s. s.text ≡ text.now) }
        ensures library { IfOk result (λ s. s.library ≡ library.now) }
    {
        Session::open_owned(library, Vec::from_slice(alloc, text)?)
    }

    /// Opens a session on a text, which it takes. Its statements stay where they stand in it, until the last of them is edited away
    /// or the session ends.
    pub fn open_owned(
        library: &'s Library<'l, A>,
        text: Vec<u8, A>,
    ) -> Result<Session<'s, 'l, A>, ReadError>
        ensures opens { OpensAs text.items result }
        ensures text { IfOk result (λ s. s.text ≡ text.items) }
        ensures library { IfOk result (λ s. s.library ≡ library.now) }
    {
        let alloc = *text.allocator();
        let text = DesignText::open_owned(library.hash_builder(), text)?;
        text.text_reads();
        Ok(Session {
            alloc,
            library,
            text,
            known: KnownLines::none(),
            noted: Noted::none(),
        })
    }

    /// The present text, put together.
    pub fn into_text(self) -> Result<Vec<u8, A>, AllocError>
        ensures { IfOk result (λ v. v.items ≡ self.entry.text) }
    {
        let Session {
            alloc,
            library: _,
            text,
            known: _,
            noted: _,
        } = self;
        text.into_text(alloc)
    }

    /// The present text, in pieces, as which it can be written without being put together.
    pub fn into_pieces(self) -> DesignText<A>
        ensures { text_of result ≡ self.entry.text }
    {
        let Session {
            alloc: _,
            library: _,
            text,
            known: _,
            noted: _,
        } = self;
        text
    }

    /// Makes an edit, or refuses it and leaves the text as it was.
    pub fn edit(&mut self, edit: &Edit<'_>) -> Result<Done, EditRefusal>
        ensures answer { Answers self.old.library self.old.text (design_edit (change_of edit.now)) result self.new.text }
        ensures applied { IfOk result (λ _. ReadsEdited self.old.text (change_of edit.now) self.new.text) }
        ensures keeps { IfOk result (λ _. KeepsTheRest self.old.library self.old.text (change_of edit.now) self.new.text) }
        ensures tests { IfOk result (λ done. TestsFewIn self.old.library self.old.text self.new.text (subject_of (change_of edit.now)) done.tests) }
        ensures few { IfOk result (λ done. ReadsFew self.old.library self.old.text (change_of edit.now) done.reads) }
        ensures library { self.new.library ≡ self.old.library }
        ensures reads { IsOk (read_def self.new.text) }
    {
        let told = self.noted.note(
            self.alloc,
            self.library,
            &self.text,
            Change::Design(edit),
            &self.known,
        );
        self.text.statements_are_kept();
        self.text.design_is_read();
        let edited = self.text.edit(self.alloc, self.library, edit);
        self.text.text_reads();
        let made = edited?;
        let reads = made.reads();
        let followed = self.noted.follow(
            self.alloc,
            self.library,
            &self.text,
            &made,
            told,
            &mut self.known,
        );
        self.text.let_go(made);
        self.text.statements_are_kept();
        self.text.design_is_read();
        self.known = KnownLines::none();
        let tests = followed.tests;
        self.known.put(followed);
        Ok(Done { reads, tests })
    }

    /// Puts bytes in the place of those from `a` up to `b`, or refuses it and leaves the text as it was.
    pub fn text_edit(&mut self, a: usize, b: usize, new: &[u8]) -> Result<Done, EditRefusal>
        ensures answer { Answers self.old.library self.old.text (text_edit a b new.now) result self.new.text }
        ensures tests { IfOk result (λ done. (subject : Option Subject) × TestsFewIn self.old.library self.old.text self.new.text subject done.tests) }
        ensures few { IfOk result (λ done. done.reads ≤ new_in self.old.text (record { lo = a; hi = b; put = new.now })) }
        ensures library { self.new.library ≡ self.old.library }
        ensures reads { IsOk (read_def self.new.text) }
    {
        let told = self.noted.note(
            self.alloc,
            self.library,
            &self.text,
            Change::Text(a),
            &self.known,
        );
        self.text.statements_are_kept();
        self.text.design_is_read();
        let edited = self.text.replace(self.alloc, a, b, new);
        self.text.text_reads();
        let made = edited?;
        let reads = made.reads();
        let followed = self.noted.follow(
            self.alloc,
            self.library,
            &self.text,
            &made,
            told,
            &mut self.known,
        );
        self.text.let_go(made);
        self.text.statements_are_kept();
        self.text.design_is_read();
        self.known = KnownLines::none();
        let tests = followed.tests;
        self.known.put(followed);
        Ok(Done { reads, tests })
    }

    /// The entry of a section that has this name, of the present text. There is none of BLOCKAGES and of sections whose
    /// entries mean nothing, as their entries have no names.
    pub fn statement(&self, section: Section, name: &[u8]) -> Option<View<'_>>
        ensures view { Views self.now.text section name.now result }
        ensures lent { IfSome result (λ v. HasParts section v.bytes.now v.parts) }
    {
        view_of(&self.text, section, name)
    }

    /// All diagnostics of the present text, in the order of their bytes, repeats kept. Lines are made at the first question after an
    /// edit that may have changed them, and kept up to the next such edit.
    pub fn diagnostics(&mut self) -> Result<DiagLines<A>, AllocError>
        ensures lines { IfOk result (λ lines. AreDiagnostics self.old.library self.old.text lines) }
        ensures kinds { IfOk result (λ lines. HaveTheirKinds lines) }
        ensures same { self.new ≡ self.old }
    {
        let is_measured = self.noted.measures.is_some();
        know_lines(
            self.alloc,
            self.library,
            &self.text,
            is_measured,
            &mut self.known,
        )?;
        self.known.joined(self.alloc)
    }

    /// All diagnostics as they are printed, each with a line end, and behind them their number. The lines that are kept are read as they
    /// are, and none is copied.
    pub fn printed_diagnostics(&mut self) -> Result<Vec<u8, A>, AllocError>
        ensures text { IfOk result (λ v. Measures self.old.text (λ design. report_lines (diagnostics self.old.library design)) v.items) }
        ensures same { self.new ≡ self.old }
    {
        let is_measured = self.noted.measures.is_some();
        know_lines(
            self.alloc,
            self.library,
            &self.text,
            is_measured,
            &mut self.known,
        )?;
        let lines = self.known.lent(self.alloc)?;
        check_text(self.alloc, &lines)
    }

    /// The length of the wires of a net, in database units; `None` where there is no such net. Measures are made with all diagnostics,
    /// from one drawing of the nets, or else at the first question; they follow an edit of one net, and are made anew after others.
    pub fn net_length(&mut self, net: &[u8]) -> Result<Option<u64>, AllocError>
        ensures length { IfOk result (Measures self.old.text (λ design. net_length self.old.library design (scale design) net.now)) }
        ensures same { self.new ≡ self.old }
    {
        let measures = take_measures(
            self.alloc,
            self.library,
            &self.text,
            &mut self.noted,
            &mut self.known,
        )?;
        let length = measures.reports().net_length(net);
        self.noted.measures = Some(measures);
        Ok(length)
    }

    /// The least rectangle round all shapes of a net, in database units, if it has some; `None` where there is no such net.
    pub fn net_box(&mut self, net: &[u8]) -> Result<Option<Option<Rect>>, AllocError>
        ensures bounds { IfOk result (λ b. Measures self.old.text (λ design. net_box self.old.library design (scale design) net.now) (option_map (option_map rectangle_of) b)) }
        ensures same { self.new ≡ self.old }
    {
        let measures = take_measures(
            self.alloc,
            self.library,
            &self.text,
            &mut self.noted,
            &mut self.known,
        )?;
        let bounds = measures.reports().net_box(net);
        self.noted.measures = Some(measures);
        Ok(bounds)
    }

    /// The lengths of all nets together, in database units.
    pub fn total_length(&mut self) -> Result<u64, AllocError>
        ensures total { IfOk result (Measures self.old.text (λ design. total_length self.old.library design (scale design))) }
        ensures same { self.new ≡ self.old }
    {
        let measures = take_measures(
            self.alloc,
            self.library,
            &self.text,
            &mut self.noted,
            &mut self.known,
        )?;
        let total = measures.reports().total_length();
        self.noted.measures = Some(measures);
        Ok(total)
    }

    /// The area that shapes of nets on a layer have in common with the cell in a column and a row of the grid, in squares of
    /// database units, overlaps counted each time; `None` where there is no such cell or layer.
    pub fn cell(
        &mut self,
        column: usize,
        row: usize,
        layer: LayerId,
    ) -> Result<Option<u128>, AllocError>
        ensures density { IfOk result (Measures self.old.text (λ design. cell_density self.old.library design column row layer.0)) }
        ensures same { self.new ≡ self.old }
    {
        let measures = take_measures(
            self.alloc,
            self.library,
            &self.text,
            &mut self.noted,
            &mut self.known,
        )?;
        let density = measures.reports().cell(column, row, layer);
        self.noted.measures = Some(measures);
        Ok(density)
    }

    /// The same of the boxes of components that take part.
    pub fn place_cell(&mut self, column: usize, row: usize) -> Result<Option<u128>, AllocError>
        ensures density { IfOk result (Measures self.old.text (λ design. place_density self.old.library design column row)) }
        ensures same { self.new ≡ self.old }
    {
        let measures = take_measures(
            self.alloc,
            self.library,
            &self.text,
            &mut self.noted,
            &mut self.known,
        )?;
        let density = measures.reports().place_cell(column, row);
        self.noted.measures = Some(measures);
        Ok(density)
    }

    /// The place of a layer of this name among the library's.
    pub fn layer(&self, name: &[u8]) -> Option<LayerId>
        ensures { option_map (λ l. l.0) result ≡ place_among self.now.library.layers name.now }
    {
        self.library.layer(name)
    }

    /// How many bytes the present text has.
    pub fn text_len(&self) -> usize
        ensures { result ≡ length self.now.text }
    {
        self.text.len()
    }

    /// Writes the present text.
    pub fn write_to<W: CountedWrite>(&self, out: &mut W) -> Result<(), WriteFault>
        requires { W.failed out.old < 2 ^ 63 }
        ensures ok { OnOk result (Appends (W.contents out.old) (W.contents out.new) self.now.text) }
        ensures err { OnErr result (WritesPart (W.contents out.old) (W.contents out.new) self.now.text) }
        ensures failed { OnErr result (HasFailed (W.failed_hard out.old) (W.failed_hard out.new) (W.failed out.old) (W.failed out.new) 33554431) }
        ensures few { W.failed out.new ≤ W.failed out.old + 33554432 }
    {
        self.text.write_to(out)
    }
}
