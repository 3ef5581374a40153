//! What an operation takes from its in-links, read where it stands.
ghost use Rattle.std.specs.Prelude.{◌≡◌, ◌<◌, slice_get};
ghost use Rattle.std.specs.Option.{option_copied};
ghost use Rattle.rig_copies.specs.Copies.{kept_at};
ghost use Rattle.rig_graph.specs.Parts.{given_at, input_at};

use rig_copies::Copies;
use rig_cut::NodeSet;
use rig_kernel::{Inputs, Out};
use rig_links::In;
use std::marker::Model;

/// The inputs of an operation while a plan runs: the rest value at a cut in-link, the result of a source that ran, and else what is kept.
/// Contracts see them as the list of the outputs; there is one for each in-link.
#[derive(Drop)]
pub(crate) struct AtLinks<'a> {
    pub(crate) row: &'a [In],
    pub(crate) rests: &'a [Option<Out>],
    pub(crate) reached: &'a NodeSet,
    pub(crate) results: &'a [Out],
    pub(crate) copies: &'a Copies,
}

impl<'a> Model for AtLinks<'a> {
    ghost use Rattle.std.specs.Prelude.{◌<◌, List, IsSome};
    ghost use Rattle.std.specs.List.{All, filter_map};
    ghost use Rattle.rig_laws.specs.Output.{Output};
    ghost use Rattle.rig_graph.specs.Parts.{input_at};

    ghost Value = { List Output };

    ghost view = { λ i. filter_map (input_at i.rests.now i.reached.now.members i.results.now i.copies.now.kept) i.row.now };

    ghost invariant = { λ i. All (λ l. l.source < i.reached.now.count) i.row.now ×
        All (λ l. IsSome (input_at i.rests.now i.reached.now.members i.results.now i.copies.now.kept l)) i.row.now };
}

impl<'a> Inputs for AtLinks<'a> {
    ghost list = { λ inputs. inputs };

    fn get(&self, index: usize) -> Option<&Out> {
        let AtLinks {
            row,
            rests,
            reached,
            results,
            copies,
        } = *self;
        if index >= row.len() {
            return None;
        }
        at_link(row[index], rests, reached, results, copies)
    }
}

// What is taken at an in-link.
fn at_link<'a>(
    link: In,
    rests: &'a [Option<Out>],
    reached: &NodeSet,
    results: &'a [Out],
    copies: &'a Copies,
) -> Option<&'a Out>
    requires { link.source < reached.now.count }
    ensures { option_copied result ≡ input_at rests.now reached.now.members results.now copies.now.kept link }
{
    if link.cut {
        rest_at(rests, link.source)
    } else {
        given_at(link.source, reached, results, copies)
    }
}

// The rest value of the operation of a number, where there is one.
fn rest_at(rests: &[Option<Out>], n: u32) -> Option<&Out>
    ensures { option_copied result ≡ kept_at rests.now n }
{
    if n as usize >= rests.len() {
        return None;
    }
    rests[n as usize].as_ref()
}

/// What there is of a number while a plan runs: the result of an operation that ran, and what is kept of one that doesn't run.
pub(crate) fn given_at<'a>(
    n: u32,
    reached: &NodeSet,
    results: &'a [Out],
    copies: &'a Copies,
) -> Option<&'a Out>
    requires { n < reached.now.count }
    ensures { option_copied result ≡ given_at reached.now.members results.now copies.now.kept n }
{
    match reached.position(n) {
        Some(place) => result_at(results, place),
        None => copies.get(n),
    }
}

fn result_at(results: &[Out], place: u32) -> Option<&Out>
    ensures { option_copied result ≡ slice_get results.now place }
{
    results.get(place as usize)
}
