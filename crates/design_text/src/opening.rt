//! Opening the text of a design: each of its statements is read once, into its piece and for the tables.

ghost use Rattle.std.specs.Prelude.{◌≡◌, List, Err, IfOk, true};
ghost use Rattle.def_grammar.specs.Records.{Record};
ghost use Rattle.design_model.specs.declared.identifier.StmtId.{StmtId as TheStmtId};
ghost use Rattle.def_reader.specs.TextViews.{ReadsText};
ghost use Rattle.design_tables.specs.Prepared.{AreKeyed};
ghost use Rattle.design_text.specs.DesignTexts.{text_of};
ghost use Rattle.design_text.specs.ToldStatements.{WereTold};
ghost use Rattle.text_pieces.specs.Content.{Opens, text_of as text_in};
ghost use Rattle.text_pieces.specs.Lent.{numbered_records};

use crate::text::DesignText;
use def_reader::read_def::read_def;
use def_reader::statement::Statement;
use design_model::fault::ReadError;
use design_model::identifier::StmtId;
use design_tables::Tables;
use piece_laws::keys::{fresh_is_once, keys_are_apart, keys_decide};
use statement_reader::laws::records_are_read;
use std::alloc::{AllocError, Allocator};
use std::hash::RandomState;
use std::rc::Rc;
use text_pieces::bytes::Block;
use text_pieces::text::TextPieces;
use text_pieces::told::Told;

/// How many bytes a text has at least that is opened with room for its names, so that their table isn't made anew as they come.
const LARGE: usize = 1048576;

/// For how many bytes such a text is taken to have a name.
const NAME: usize = 256;

/// For how many names the tables of a text get room before its statements are read.
fn names_in(text: &[u8]) -> usize {
    if text.len() < LARGE {
        0
    } else {
        text.len() / NAME
    }
}

/// The tables of the statements that were told, and whether one came again of which a text has one.
#[derive(Drop)]
struct Telling<'b, A: Allocator + Copy> {
    tables: Tables<A>,
    is_repeated: bool,
    text: &'b Rc<Vec<u8, A>, A>,
}

impl<'b, A: Allocator + Copy> Told for Telling<'b, A> {
    ghost says = { λ t xs. WereTold t.tables t.is_repeated xs };

    fn tell(&mut self, id: StmtId, statement: &Statement<'_>) -> Result<(), AllocError> {
        let Ok(repeats) = self.tables.add(id, statement, self.text) else {
            return Err(AllocError);
        };
        if repeats {
            self.is_repeated = true;
            return Ok(());
        }
        Ok(())
    }
}

impl<'b, A: Allocator + Copy> Telling<'b, A> {
    /// Whether what a text has once stands once, and UNITS is there.
    fn is_keyed(&self) -> bool
        ensures { (xs : List (TheStmtId × Record)) → WereTold self.now.tables self.now.is_repeated xs → result ≡ true → AreKeyed xs }
    {
        if self.is_repeated {
            return false;
        }
        self.tables.has_units()
    }
}

/// Whether a text reads of which all statements do. It is read again where it does not, for its fault.
fn check_keys<A: Allocator + Copy>(
    alloc: A,
    hash_builder: RandomState,
    text: &[u8],
    pieces: &TextPieces<A>,
    telling: &Telling<'_, A>,
) -> Result<(), ReadError>
    requires is { text_in pieces.now ≡ text.now }
    requires told { WereTold telling.now.tables telling.now.is_repeated (numbered_records pieces.now) }
    ensures { ReadsText text.now result }
{
    keys_decide();
    fresh_is_once();
    pieces.statements_are_numbered();
    if telling.is_keyed() {
        return Ok(());
    }
    match read_def(alloc, hash_builder, text) {
        Ok(_) => Ok(()),
        Err(error) => Err(error),
    }
}

/// What is answered of a text whose pieces can't be opened: its fault, which is the first of two, as a statement that comes again may
/// stand before one that can't be read. Where it has none, memory was refused.
fn unopened<A: Allocator + Copy>(
    alloc: A,
    hash_builder: RandomState,
    text: &[u8],
    error: ReadError,
) -> Result<DesignText<A>, ReadError>
    requires { Opens text.now (Err error) }
    ensures opens { ReadsText text.now result }
    ensures text { IfOk result (λ t. text_of t ≡ text.now) }
{
    keys_are_apart();
    read_def(alloc, hash_builder, text)?;
    Err(error)
}

impl<A: Allocator + Copy> DesignText<A> {
    /// The text of a design, in pieces and with its tables. Its fault is that of the text.
    pub fn open(
        alloc: A,
        hash_builder: RandomState,
        text: &[u8],
    ) -> Result<DesignText<A>, ReadError>
        ensures opens { ReadsText text.now result }
        ensures text { IfOk result (λ t. text_of t ≡ text.now) }
    {
        DesignText::open_owned(hash_builder, Vec::from_slice(alloc, text)?)
    }

    /// The same of a text that is taken, and isn't copied.
    pub fn open_owned(
        hash_builder: RandomState,
        text: Vec<u8, A>,
    ) -> Result<DesignText<A>, ReadError>
        ensures opens { ReadsText text.items result }
        ensures text { IfOk result (λ t. text_of t ≡ text.items) }
    {
        records_are_read::<Statement<'_>>();
        let alloc = *text.allocator();
        let block = Block::new(text)?;
        let text = block.as_slice();
        let tables = Tables::with_room(alloc, hash_builder, names_in(text));
        let mut telling = Telling {
            tables,
            is_repeated: false,
            text: block.shared(),
        };
        match TextPieces::open_telling(alloc, &block, &mut telling) {
            Ok(pieces) => {
                check_keys(alloc, hash_builder, text, &pieces, &telling)?;
                let tables = telling.tables;
                Ok(DesignText {
                    pieces,
                    tables,
                    unused: None,
                })
            }
            Err(error) => unopened(alloc, hash_builder, text, error),
        }
    }
}
