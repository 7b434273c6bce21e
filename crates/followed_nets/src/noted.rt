//! What is noted of the nets of a text.

ghost use Rattle.std.specs.Prelude.{◌≡◌, ◌++◌, ◌∷◌, IfOk, IfSome, List, map};
ghost use Rattle.std.specs.List.{AllByRecursion};
ghost use Rattle.def_reader.specs.StatementViews.{record_view};
ghost use Rattle.design_rules.specs.Boxes.{scale};
ghost use Rattle.lef_grammar.specs.Library.{Library as TheLibrary};
ghost use Rattle.connection_rules.specs.NetLines.{barriers};
ghost use Rattle.connection_rules.specs.NetParts.{Net, all_nets};
ghost use Rattle.line_laws.specs.Lines.{SameThings};
ghost use Rattle.net_touches.specs.Barriers.{barrier_view};
ghost use Rattle.named_shapes.specs.Named.{shapes_by_name};
ghost use Rattle.design_tables.specs.TableViews.{numbered_view};
ghost use Rattle.design_text.specs.DesignTexts.{design_of};
ghost use Rattle.followed_nets.specs.Noted.{numbers_telling, said, tells_any};
ghost use Rattle.followed_nets.specs.Stars.{AreStarNames, AreStars, IsStar, names_of};

use crate::entries::entries_of;
use crate::listed::add_net;
use crate::stars::lists_all;
use cell_library::library::Library;
use def_reader::entry::Entry;
use def_reader::statement::Statement;
use design_model::identifier::StmtId;
use design_names::names::names_of;
use design_nets::nets_of;
use design_tables::Numbered;
use design_text::text::DesignText;
use design_wires::wires::DesignWires;
use kept_nets::KeptNet;
use line_laws::scales::scales_are_good;
use name_keys::OwnName;
use named_shapes::NamedShapes;
use net_checks::barriers_of;
use net_lists::NetList;
use net_touches::Barrier;
use std::alloc::{AllocError, Allocator};

/// How many nets that list a pin of all components are kept with their parts. They are gone over for each edit of a component.
const MOST_STARS: usize = 64;

/// The shapes of all nets of a text, the rectangles where routing is blocked, and the nets that list a pin of all components with their
/// parts, unless these are many.
#[derive(Drop)]
pub(crate) struct DrawnNets<A: Allocator> {
    pub(crate) shapes: NamedShapes<A>,
    pub(crate) bars: Vec<Barrier, A>,
    pub(crate) stars: Option<Vec<KeptNet<A>, A>>,
}

/// Whether a statement is read whichever net is told: of what any net may be made of, or a pin of the design.
fn tells_any(statement: &Statement<'_>) -> bool
    ensures { result ≡ tells_any (record_view statement.now) }
{
    match statement {
        Statement::Units(_) => true,
        Statement::Entry(entry) => match entry {
            Entry::Pin(_) | Entry::Via(_) | Entry::Rule(_) => true,
            _ => false,
        },
        _ => false,
    }
}

/// The numbers of those of these statements that are read whichever net is told, in their order.
pub fn common_numbers<A: Allocator + Copy>(
    alloc: A,
    statements: &[Numbered<'_>],
) -> Result<Vec<StmtId, A>, AllocError>
    ensures { IfOk result (λ v. v.items ≡ numbers_telling (map numbered_view statements.now)) }
{
    let mut numbers = Vec::new(alloc);
    for numbered in statements {
        if tells_any(&numbered.statement) {
            numbers.push(numbered.id)?;
        }
    }
    Ok(numbers)
}

/// The names of the nets of these statements that list a pin of all components, each once, unless they are many.
pub(crate) fn star_names<A: Allocator + Copy>(
    alloc: A,
    statements: &[Numbered<'_>],
) -> Result<Option<Vec<OwnName<A>, A>>, AllocError>
    ensures { IfOk result (λ found. IfSome found (λ v. AreStarNames (said (map numbered_view statements.now)) v.items)) }
{
    let mut names = Vec::new(alloc);
    for numbered in statements {
        if names.len() > MOST_STARS {
            return Ok(None);
        }
        if lists_all(&numbered.statement) {
            add_net(alloc, &mut names, &numbered.statement)?;
        }
    }
    Ok(Some(names))
}

/// A copy of the net of a name in a list, if it is there.
fn copied<A: Allocator + Copy>(
    alloc: A,
    nets: &NetList<'_, A>,
    name: &[u8],
) -> Result<Option<KeptNet<A>>, AllocError>
    ensures { IfOk result (λ found. IfSome found (λ n. (n.name ≡ name.now) × ((before : List Net) × (behind : List Net) × (nets.now ≡ before ++ n ∷ behind)))) }
{
    let mut left = nets.nets();
    while let Some(net) = left.next() {
        if net.head.name == name {
            return Ok(Some(KeptNet::of(alloc, &net)?));
        }
    }
    Ok(None)
}

/// The net of this name, with its parts as in a list of all nets of a text, if it has an entry.
fn star_of<A: Allocator + Copy>(
    alloc: A,
    text: &DesignText<A>,
    nets: &NetList<'_, A>,
    name: &[u8],
) -> Result<Option<KeptNet<A>>, AllocError>
    ensures named { IfOk result (λ found. IfSome found (λ n. n.name ≡ name.now)) }
    ensures star { (library : TheLibrary) → nets.now ≡ all_nets library (design_of text.now) (scale (design_of text.now))
        → IfOk result (λ found. IfSome found (IsStar library (design_of text.now))) }
{
    let Some(_entries) = entries_of(text, name) else {
        return Ok(None);
    };
    copied(alloc, nets, name)
}

/// The nets of these names, unless one of them isn't there.
fn stars_of<A: Allocator + Copy>(
    alloc: A,
    text: &DesignText<A>,
    nets: &NetList<'_, A>,
    names: &[OwnName<A>],
) -> Result<Option<Vec<KeptNet<A>, A>>, AllocError>
    ensures named { IfOk result (λ found. IfSome found (λ v. names_of v.items ≡ names.now)) }
    ensures stars { (library : TheLibrary) → nets.now ≡ all_nets library (design_of text.now) (scale (design_of text.now))
        → IfOk result (λ found. IfSome found (λ v. AllByRecursion (IsStar library (design_of text.now)) v.items)) }
{
    let mut stars = Vec::new(alloc);
    for name in names {
        match star_of(alloc, text, nets, name.bytes())? {
            Some(star) => stars.push(star)?,
            None => return Ok(None),
        }
    }
    Ok(Some(stars))
}

/// The same, where there are names.
fn stars_if<A: Allocator + Copy>(
    alloc: A,
    text: &DesignText<A>,
    nets: &NetList<'_, A>,
    names: Option<Vec<OwnName<A>, A>>,
) -> Result<Option<Vec<KeptNet<A>, A>>, AllocError>
    ensures { (library : TheLibrary) → nets.now ≡ all_nets library (design_of text.now) (scale (design_of text.now)) → IfSome names (λ v. AreStarNames (design_of text.now) v.items)
        → IfOk result (λ found. IfSome found (λ v. AreStars library (design_of text.now) v.items)) }
{
    match names {
        Some(names) => stars_of(alloc, text, nets, &names),
        None => Ok(None),
    }
}

/// The nets of a text as they are drawn; those with these names are kept with their parts.
pub(crate) fn drawn_nets<A: Allocator + Copy>(
    alloc: A,
    library: &Library<'_, A>,
    text: &DesignText<A>,
    names: Option<Vec<OwnName<A>, A>>,
) -> Result<DrawnNets<A>, AllocError>
    ensures shapes { IfOk result (λ d. SameThings d.shapes (shapes_by_name (all_nets library.now (design_of text.now) (scale (design_of text.now))))) }
    ensures bars { IfOk result (λ d. map barrier_view d.bars.items ≡ barriers library.now (design_of text.now) (scale (design_of text.now))) }
    ensures stars { IfSome names (λ v. AreStarNames (design_of text.now) v.items) → IfOk result (λ d. IfSome d.stars (λ v. AreStars library.now (design_of text.now) v.items)) }
{
    scales_are_good();
    text.design_is_read();
    let records = text.statements(alloc)?;
    let known = names_of(alloc, library.hash_builder(), &records)?;
    let wires = DesignWires::new(alloc, library, &known)?;
    let nets = nets_of(alloc, library, &known, &wires)?;
    let shapes = NamedShapes::of(alloc, library.hash_builder(), &nets)?;
    let stars = stars_if(alloc, text, &nets, names)?;
    let bars = barriers_of(alloc, library, &records)?;
    Ok(DrawnNets {
        shapes,
        bars,
        stars,
    })
}
