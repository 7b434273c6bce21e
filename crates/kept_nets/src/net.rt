//! A net with parts of its own.

ghost use Rattle.std.specs.Prelude.{◌≡◌, ◌≤◌, ◌-◌, ◌^◌, ◌∷◌, ◌++◌, ◌⊎◌, [], IfOk, IfSome, IsTrue, List, OnOk, flat_map, map, min};
ghost use Rattle.connection_rules.specs.NetLines.{class_lines, routeblock_of, shapes_of_net, shapes_of_part};
ghost use Rattle.connection_rules.specs.NetParts.{Part};
ghost use Rattle.design_model.specs.Families.{cross_lines};
ghost use Rattle.line_laws.specs.Lines.{SameThings};
ghost use Rattle.net_lists.specs.NetViews.{net_view, net_with};
ghost use Rattle.net_touches.specs.Barriers.{barrier_view, name_at};
ghost use Rattle.kept_nets.specs.NearParts.{GrewBy, IsToldBy, met_between, met_in_parts, near_in_parts};
ghost use Rattle.kept_nets.specs.Parts.{part_view};

use crate::joined::{with_pin, without_pin};
use crate::joint::joint_of;
use crate::listing::classes_of_parts;
use crate::looks::{Looks, sure_in, sure_in_all};
use crate::part::KeptPart;
use crate::places::{place_of, placed_parts, with_last, without_part};
use class_laws::{classes_are_few, same_parts_are_alike};
use name_keys::OwnName;
use net_classes::{NetClasses, net_classes_of, put_lines_of_classes};
use net_lists::{NetHead, NetView, PartView};
use net_queries::put_barred_part;
use net_touches::Barrier;
use placed_shapes::PlacedShapes;
use report_lines::Lines;
use std::alloc::{AllocError, Allocator, Global};
use std::marker::Model;

/// A net: its name, whether it is of power, and its parts.
#[derive(Drop)]
pub struct KeptNet<A: Allocator = Global> {
    name: OwnName<A>,
    is_power: bool,
    parts: Vec<KeptPart<A>, A>,
    // The shapes of the parts, each under its part's place; none where a change of them failed.
    shapes: Option<PlacedShapes<A>>,
    // How the parts hang together; none where that is to be found from all of them.
    classes: Option<NetClasses>,
    // So many shapes of the parts at least are near themselves: all of them, unless some are turned inside out.
    sure: u64,
}

/// How many pairs of shapes were compared where parts of a net are exchanged: near those that go and come, and then of all parts, where
/// the first don't tell how they hang together. So the first are at least the shapes that stay which meet those that go and come, or
/// the second at least those that meet in the net then.
#[derive(Clone, Copy)]
pub struct ExchangeTests {
    pub before: u64,
    pub after: u64,
}

impl<A: Allocator> Model for KeptNet<A> {
    ghost use Rattle.std.specs.Prelude.{map};
    ghost use Rattle.connection_rules.specs.NetParts.{Net};
    ghost use Rattle.kept_nets.specs.Kept.{AreKnown};
    ghost use Rattle.kept_nets.specs.Parts.{part_view};

    ghost Value = { Net };

    ghost view = { λ n. record { name = n.name; is_power = n.is_power; parts = map part_view n.parts.items } };

    ghost invariant = { λ n. AreKnown (map part_view n.parts.items) n.shapes n.classes n.sure };
}

/// Copies of the parts of a net.
fn copied_parts<A: Allocator + Copy>(
    alloc: A,
    net: &NetView<'_, '_>,
) -> Result<Vec<KeptPart<A>, A>, AllocError>
    ensures { IfOk result (λ v. map part_view v.items ≡ (net_view net.now).parts) }
{
    let mut parts = Vec::with_capacity(alloc, net.parts.len())?;
    let mut left = net.part_views();
    while let Some(part) = left.next() {
        parts.push(KeptPart::of(alloc, part)?)?;
    }
    Ok(parts)
}

/// Puts the lines of the shapes of parts of a net with barriers behind others.
fn put_barred_parts<A: Allocator + Copy>(
    names: &[&[u8]],
    head: &NetHead<'_>,
    parts: &[KeptPart<A>],
    barriers: &[Barrier],
    lines: &mut Lines<A>,
) -> Result<(), AllocError>
    ensures { OnOk result (lines.new ≡ lines.old ++ cross_lines (routeblock_of (name_at (map (λ w. w.now) names.now))) (flat_map (shapes_of_part (net_with head.now [])) (map part_view parts.now)) (map barrier_view barriers.now)) }
{
    for part in parts {
        let own = PartView {
            is_pin: part.is_pin,
            shapes: part.shapes.as_slice(),
        };
        put_barred_part(names, head, &own, barriers, lines)?;
    }
    Ok(())
}

impl<A: Allocator + Copy> KeptNet<A> {
    /// A copy of a net.
    pub fn of(alloc: A, net: &NetView<'_, '_>) -> Result<KeptNet<A>, AllocError>
        ensures { IfOk result (λ n. n ≡ net_view net.now) }
    {
        let name = OwnName::copy_of(alloc, net.head.name)?;
        let parts = copied_parts(alloc, net)?;
        let shapes = placed_parts(alloc, &parts)?;
        let classes = net_classes_of(alloc, net)?;
        let sure = sure_in_all(&parts);
        Ok(KeptNet {
            name,
            is_power: net.head.is_power,
            parts,
            shapes: Some(shapes),
            classes: Some(classes),
            sure,
        })
    }

    /// Its name.
    pub fn name(&self) -> &[u8]
        ensures { result.now ≡ self.now.name }
    {
        self.name.bytes()
    }

    /// Takes a part out, and says whether it was there. `told` is false then where its joint with the others isn't known.
    fn take_one(
        &mut self,
        part: &KeptPart<A>,
        told: &mut bool,
        looks: &mut Looks,
    ) -> Result<bool, AllocError>
        ensures out { IfOk result (λ there. IsTrue there → SameThings self.old.parts (part_view part.now ∷ self.new.parts)) }
        ensures told { IfOk result (λ there. IsTrue there → IsToldBy told.old told.new (met_between (part_view part.now ∷ []) self.new.parts) looks.old.tests looks.new.tests) }
        ensures name { self.new.name ≡ self.old.name }
        ensures power { self.new.is_power ≡ self.old.is_power }
    {
        same_parts_are_alike();
        let alloc = *self.parts.allocator();
        let Some(place) = place_of(&self.parts, self.shapes.as_ref(), part, looks) else {
            return Ok(false);
        };
        let shapes = self.shapes.take();
        let classes = self.classes.take();
        let gone = self.parts.swap_remove(place);
        self.sure = self.sure.saturating_sub(gone.shapes.len() as u64);
        let Some(shapes) = shapes else {
            *told = false;
            return Ok(true);
        };
        let Some(shapes) = without_part(shapes, place, &gone, &self.parts)? else {
            *told = false;
            return Ok(true);
        };
        let joint = joint_of(alloc, &gone, &self.parts, &shapes, looks)?;
        *told = *told && joint.is_known();
        self.classes = without_pin(classes, joint);
        self.shapes = Some(shapes);
        Ok(true)
    }

    /// Takes parts out, each once, and says whether all of them were there. Where they weren't, some may be gone.
    fn take_out(
        &mut self,
        parts: &[KeptPart<A>],
        told: &mut bool,
        looks: &mut Looks,
    ) -> Result<bool, AllocError>
        ensures out { IfOk result (λ there. IsTrue there → SameThings self.old.parts (map part_view parts.now ++ self.new.parts)) }
        ensures told { IfOk result (λ there. IsTrue there → IsToldBy told.old told.new (met_between (map part_view parts.now) self.new.parts) looks.old.tests looks.new.tests) }
        ensures name { self.new.name ≡ self.old.name }
        ensures power { self.new.is_power ≡ self.old.is_power }
    {
        for part in parts {
            if !self.take_one(part, told, looks)? {
                return Ok(false);
            }
        }
        Ok(true)
    }

    /// Puts a part in. `told` is false then where its joint with the others isn't known.
    fn put_one(
        &mut self,
        part: KeptPart<A>,
        told: &mut bool,
        looks: &mut Looks,
    ) -> Result<(), AllocError>
        ensures put { OnOk result (SameThings self.new.parts (part_view part ∷ self.old.parts)) }
        ensures told { OnOk result (IsToldBy told.old told.new (met_between (part_view part ∷ []) self.old.parts) looks.old.tests looks.new.tests) }
        ensures name { self.new.name ≡ self.old.name }
        ensures power { self.new.is_power ≡ self.old.is_power }
    {
        same_parts_are_alike();
        let alloc = *self.parts.allocator();
        let classes = self.classes.take();
        let sure = self.sure.saturating_add(sure_in(&part));
        let Some(shapes) = self.shapes.take() else {
            *told = false;
            self.parts.push(part)?;
            return Ok(());
        };
        let joint = joint_of(alloc, &part, &self.parts, &shapes, looks)?;
        *told = *told && joint.is_known();
        let shapes = with_last(shapes, self.parts.len(), &part)?;
        self.parts.push(part)?;
        self.sure = sure;
        self.classes = with_pin(classes, joint);
        self.shapes = Some(shapes);
        Ok(())
    }

    /// Finds from all parts how these hang together, and says how many pairs of shapes were compared for it: those that meet at least.
    fn find_classes(&mut self) -> Result<u64, AllocError>
        ensures same { self.new ≡ self.old }
        ensures tests { IfOk result (λ n. n ≤ near_in_parts self.new.parts) }
        ensures least { IfOk result (λ n. min (met_in_parts self.new.parts) (2 ^ 64 - 1) ≤ n) }
    {
        let found = classes_of_parts(*self.parts.allocator(), &self.parts)?;
        self.classes = Some(found.classes);
        Ok(found.tests)
    }

    /// The same, unless all joints told it: then 0.
    fn settle(&mut self, told: bool) -> Result<u64, AllocError>
        ensures same { self.new ≡ self.old }
        ensures tests { IfOk result (λ n. n ≤ near_in_parts self.new.parts) }
        ensures least { IfOk result (λ n. IsTrue told ⊎ (min (met_in_parts self.new.parts) (2 ^ 64 - 1) ≤ n)) }
    {
        if told && self.classes.is_some() {
            return Ok(0);
        }
        self.find_classes()
    }

    /// Puts parts in.
    fn put_in(
        &mut self,
        parts: Vec<KeptPart<A>, A>,
        told: &mut bool,
        looks: &mut Looks,
    ) -> Result<(), AllocError>
        ensures put { OnOk result (SameThings self.new.parts (map part_view parts.items ++ self.old.parts)) }
        ensures name { self.new.name ≡ self.old.name }
        ensures power { self.new.is_power ≡ self.old.is_power }
        ensures told { OnOk result (IsToldBy told.old told.new (met_between (map part_view parts.items) self.old.parts) looks.old.tests looks.new.tests) }
    {
        let mut parts = parts;
        while let Some(part) = parts.pop() {
            self.put_one(part, told, looks)?;
        }
        Ok(())
    }

    /// Takes parts out, each once, puts others in, and says how many pairs of shapes were compared to find how all hang together then;
    /// `None` where those that go weren't all there, or where more shapes near them were compared than are near each other at least.
    pub fn exchange(
        &mut self,
        out: &[KeptPart<A>],
        put: Vec<KeptPart<A>, A>,
    ) -> Result<Option<ExchangeTests>, AllocError>
        ensures parts { IfOk result (λ found. IfSome found (λ _. (stay : List Part) × SameThings self.old.parts (map part_view out.now ++ stay) × SameThings self.new.parts (map part_view put.items ++ stay))) }
        ensures name { self.new.name ≡ self.old.name }
        ensures power { self.new.is_power ≡ self.old.is_power }
        ensures before { IfOk result (λ found. IfSome found (λ t. t.before ≤ near_in_parts self.old.parts)) }
        ensures after { IfOk result (λ found. IfSome found (λ t. t.after ≤ near_in_parts self.new.parts)) }
        ensures least { IfOk result (λ found. IfSome found (λ t. (stay : List Part) → SameThings self.old.parts (map part_view out.now ++ stay)
            → GrewBy (met_between (map part_view out.now ++ map part_view put.items) stay) 0 t.before ⊎ GrewBy (met_in_parts self.new.parts) 0 t.after)) }
    {
        let most = self.sure;
        let mut looks = Looks { tests: 0, most };
        let mut told = true;
        if !self.take_out(out, &mut told, &mut looks)? {
            return Ok(None);
        }
        self.put_in(put, &mut told, &mut looks)?;
        let after = self.settle(told)?;
        let before = looks.tests;
        if before > most {
            return Ok(None);
        }
        Ok(Some(ExchangeTests { before, after }))
    }

    /// Puts the lines on how it hangs together behind others, if that is known, and says whether it is.
    pub fn put_class_lines(&self, lines: &mut Lines<A>) -> Result<bool, AllocError>
        ensures { IfOk result (λ known. IsTrue known → lines.new ≡ lines.old ++ class_lines self.now) }
    {
        classes_are_few();
        let Some(classes) = self.classes else {
            return Ok(false);
        };
        put_lines_of_classes(self.name.bytes(), classes, lines)?;
        Ok(true)
    }

    /// Puts the lines of its shapes with rectangles where routing is blocked behind others, in an order that is left open. `names` are
    /// those of the layers, by their places.
    pub fn put_barred(
        &self,
        names: &[&[u8]],
        barriers: &[Barrier],
        lines: &mut Lines<A>,
    ) -> Result<(), AllocError>
        ensures { OnOk result (lines.new ≡ lines.old ++ cross_lines (routeblock_of (name_at (map (λ w. w.now) names.now))) (shapes_of_net self.now) (map barrier_view barriers.now)) }
    {
        let head = NetHead {
            name: self.name.bytes(),
            is_power: self.is_power,
            parts: 0,
        };
        put_barred_parts(names, &head, &self.parts, barriers, lines)
    }
}
