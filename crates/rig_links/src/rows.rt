//! Links in rows: the in-links of each reader, and the readers of each source.
ghost use Rattle.std.specs.Prelude.{◌≡◌, ◌<◌, ◌^◌, ◌++◌, [], ◌∷◌, length, map, IfOk, OnOk, if◌then◌else◌};
ghost use Rattle.std.specs.List.{All};
ghost use Rattle.rig_cut.specs.Links.{is_cut};
ghost use Rattle.rig_rows.specs.Rows.{grouped};
ghost use Rattle.rig_links.specs.ByKey.{in_of, in_rows, uncut, reader_rows};

use crate::table::In;
use rig_cut::Link;
use rig_io::NoMemory;
use rig_rows::Rows;
use std::alloc::{AllocError, Global};

/// The in-links of each reader below a number, in order.
pub(crate) fn in_rows(
    alloc: Global,
    count: u32,
    links: &[Link],
    cuts: &[bool],
) -> Result<Rows<In>, NoMemory>
    requires in_range { All (λ l. l.reader < count) links.now }
    requires few { length links.now < 2 ^ 32 }
    requires cuts { cuts.now ≡ map (is_cut links.now) links.now }
    ensures { IfOk result (λ rows. rows ≡ in_rows links.now count) }
{
    let rows = by_reader(alloc, count, links)?;
    let ins = ins_of(alloc, links, cuts)?;
    rows.select(alloc, ins.as_slice())
}

/// The indices of links by reader.
fn by_reader(alloc: Global, count: u32, links: &[Link]) -> Result<Rows<u32>, NoMemory>
    requires in_range { All (λ l. l.reader < count) links.now }
    requires few { length links.now < 2 ^ 32 }
    ensures { IfOk result (λ rows. rows ≡ grouped count (map (λ l. l.reader) links.now)) }
{
    let readers = readers_of(alloc, links)?;
    Rows::grouped(alloc, count, readers.as_slice())
}

/// The readers of each source below a number by links that aren't cut, in order.
pub(crate) fn reader_rows(
    alloc: Global,
    count: u32,
    links: &[Link],
    cuts: &[bool],
) -> Result<Rows<u32>, NoMemory>
    requires in_range { All (λ l. l.source < count) links.now }
    requires few { length links.now < 2 ^ 32 }
    requires cuts { cuts.now ≡ map (is_cut links.now) links.now }
    ensures { IfOk result (λ rows. rows ≡ reader_rows links.now count) }
{
    let rows = kept_by_source(alloc, count, links, cuts)?;
    let readers = kept_readers(alloc, links, cuts)?;
    rows.select(alloc, readers.as_slice())
}

/// The indices of the links that aren't cut, among these, by source.
fn kept_by_source(
    alloc: Global,
    count: u32,
    links: &[Link],
    cuts: &[bool],
) -> Result<Rows<u32>, NoMemory>
    requires in_range { All (λ l. l.source < count) links.now }
    requires few { length links.now < 2 ^ 32 }
    requires cuts { cuts.now ≡ map (is_cut links.now) links.now }
    ensures { IfOk result (λ rows. rows ≡ grouped count (map (λ l. l.source) (uncut links.now))) }
{
    let sources = kept_sources(alloc, links, cuts)?;
    Rows::grouped(alloc, count, sources.as_slice())
}

fn readers_of(alloc: Global, links: &[Link]) -> Result<Vec<u32>, AllocError>
    ensures { IfOk result (λ list. list.items ≡ map (λ l. l.reader) links.now) }
{
    let mut list = Vec::with_capacity(alloc, links.len())?;
    for link in links {
        list.push(link.reader)?;
    }
    Ok(list)
}

fn ins_of(alloc: Global, links: &[Link], cuts: &[bool]) -> Result<Vec<In>, AllocError>
    requires { cuts.now ≡ map (is_cut links.now) links.now }
    ensures { IfOk result (λ list. list.items ≡ map (in_of links.now) links.now) }
{
    let mut list = Vec::with_capacity(alloc, links.len())?;
    for (index, link) in links.iter().enumerate() {
        list.push(In {
            source: link.source,
            cut: cuts[index],
        })?;
    }
    Ok(list)
}

/// The sources of the links that aren't cut.
fn kept_sources(alloc: Global, links: &[Link], cuts: &[bool]) -> Result<Vec<u32>, AllocError>
    requires { cuts.now ≡ map (is_cut links.now) links.now }
    ensures { IfOk result (λ list. list.items ≡ map (λ l. l.source) (uncut links.now)) }
{
    let mut list = Vec::with_capacity(alloc, links.len())?;
    for (index, link) in links.iter().enumerate() {
        push_unless(&mut list, cuts[index], link.source)?;
    }
    Ok(list)
}

/// The readers of the links that aren't cut.
fn kept_readers(alloc: Global, links: &[Link], cuts: &[bool]) -> Result<Vec<u32>, AllocError>
    requires { cuts.now ≡ map (is_cut links.now) links.now }
    ensures { IfOk result (λ list. list.items ≡ map (λ l. l.reader) (uncut links.now)) }
{
    let mut list = Vec::with_capacity(alloc, links.len())?;
    for (index, link) in links.iter().enumerate() {
        push_unless(&mut list, cuts[index], link.reader)?;
    }
    Ok(list)
}

fn push_unless(list: &mut Vec<u32>, is_cut: bool, number: u32) -> Result<(), AllocError>
    ensures { OnOk result (list.new.items ≡ list.old.items ++ (if is_cut then [] else number ∷ [])) }
{
    if !is_cut {
        list.push(number)?;
    }
    Ok(())
}
