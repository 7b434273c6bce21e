//! Classes as a forest, in which each part stands over a part of its class with a lesser number, or is the root of its class.

ghost use Rattle.std.specs.Prelude.{◌≡◌, ◌<◌, ◌≤◌, ℕ, false, length, replicate};
ghost use Rattle.shape_rules.specs.Classes.{distinct, holding, joined};
ghost use Rattle.part_classes.specs.Forest.{labels_of, root_of};

/// The root of a part's class. The way there is halved: each second part on it is put under the part two steps on.
fn root(parents: &mut [usize], part: usize) -> usize
    requires { part < length parents.old }
    ensures root { result ≡ root_of parents.old part }
    ensures same { (k : ℕ) → root_of parents.new k ≡ root_of parents.old k }
    ensures least { result ≤ part }
    ensures size { length parents.new ≡ length parents.old }
{
    let mut at = part;
    while parents[at] < at {
        let over = parents[at];
        if parents[over] < over {
            parents[at] = parents[over];
        }
        at = over;
    }
    at
}

/// Puts the class with the greater root under the lesser root.
pub(crate) fn join(parents: &mut [usize], a: usize, b: usize)
    requires first { a < length parents.old }
    requires second { b < length parents.old }
    ensures { labels_of parents.new ≡ joined (a, b) (labels_of parents.old) }
{
    let first = root(parents, a);
    let second = root(parents, b);
    if first < second {
        parents[second] = first;
    } else {
        parents[first] = second;
    }
}

/// Puts each part right under its root.
pub(crate) fn settle(parents: &mut [usize])
    ensures labels { parents.new ≡ labels_of parents.old }
    ensures same { labels_of parents.new ≡ labels_of parents.old }
{
    for part in 0..parents.len() {
        let over = parents[part];
        parents[part] = if over < part { parents[over] } else { part };
    }
}

/// How many classes there are, where each part stands right under its root.
pub(crate) fn count_classes(labels: &[usize]) -> usize
    requires { labels_of labels.now ≡ labels.now }
    ensures { result ≡ distinct labels.now }
{
    let mut classes = 0;
    for part in 0..labels.len() {
        if labels[part] == part {
            classes += 1;
        }
    }
    classes
}

/// How many classes hold a marked part, where each part stands right under its root. `held` notes the root of each class
/// that does.
pub(crate) fn count_holding(labels: &[usize], marks: &[bool], held: &mut [bool]) -> usize
    requires labels { labels_of labels.now ≡ labels.now }
    requires marks { length marks.now ≡ length labels.now }
    requires held { held.old ≡ replicate (length labels.now) false }
    ensures { result ≡ holding marks.now labels.now }
{
    let mut holding = 0;
    for part in 0..labels.len() {
        let label = labels[part];
        if marks[part] && !held[label] {
            held[label] = true;
            holding += 1;
        }
    }
    holding
}
