//! The components that links form.

ghost use Rattle.std.specs.Prelude.{◌≡◌, ◌==◌, ◌<◌, All, length, map, IfOk, if◌then◌else◌};
ghost use Rattle.std.specs.List.{range_with_len};
ghost use Rattle.net_graph.specs.Wires.{IsLink};
ghost use Rattle.table_script.specs.Tables.{AreLabels};

use common_values::memory::OutOfMemory;
use net_graph::wiring::LinkAt;
use net_script::script::Script;
use std::alloc::Global;

/// The network that tables belong to: its script, and the labels of its components.
#[derive(Clone, Copy, Drop)]
pub struct Network<'a> {
    /// The script.
    pub script: &'a Script,
    /// A label for each switch, by index.
    pub labels: &'a [u8],
    ghost fit: { AreLabels (length script.now.wires.switches) script.now.wires.links labels.now },
}

/// Returns labels of `count` switches, by index: two are equal if and only if `links` join their switches.
///
/// It reads each link once, and each label once for each link that joins two components. Each link
/// must be one of a network of `count` switches.
///
/// # Errors
/// `OutOfMemory` if an allocation fails.
pub fn labels_of(alloc: Global, count: u8, links: &[LinkAt]) -> Result<Vec<u8>, OutOfMemory>
    requires { All (IsLink count) links.now }
    ensures { IfOk result (λ labels. AreLabels count links.now labels.items) }
{
    match links {
        [] => places(alloc, count),
        [link, rest @ ..] => {
            let labels = labels_of(alloc, count, rest)?;
            let from = labels[usize::from(link.b)];
            let to = labels[usize::from(link.a)];
            if from == to {
                return Ok(labels);
            }
            relabelled(alloc, &labels, from, to)
        }
    }
}

// The indices of `count` switches.
fn places(alloc: Global, count: u8) -> Result<Vec<u8>, OutOfMemory>
    ensures { IfOk result (λ places. places.items ≡ range_with_len 0 count) }
{
    let mut places = Vec::new(alloc);
    'places: for s in 0..count {
        places.push(s)?;
    }
    Ok(places)
}

// The labels, with `from` replaced by `to`.
fn relabelled(alloc: Global, labels: &[u8], from: u8, to: u8) -> Result<Vec<u8>, OutOfMemory>
    ensures { IfOk result (λ v. v.items ≡ map (λ l. (if l == from then to else l)) labels.now) }
{
    Ok(
        labels
            .iter()
            .map(|label| if *label == from { to } else { *label })
            .collect(alloc)?,
    )
}
