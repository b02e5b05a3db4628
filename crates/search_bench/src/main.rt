//! Times searches of a directory by its index, as it stands and in the order of its dump, beside searches that test each entry in scope.
#![tactic(auto)]

mod timing;

ghost use Rattle.std.specs.Prelude.{◌≡◌, IfOk};

use anyhow::{Error, Result};
use dir_conf::read_conf;
use directory::{Directory, load};
use filter::{Prepared, prepare};
use filter_text::read_filter;
use std::alloc::Global;
use std::io::Print;
use std::rt::Clock;
use std::{env, fs};
use timing::{Both, Search, best_of};
use try_device::TrySource;

/// What is printed without words.
const HELP: &str = "search_bench DIR.CONF DATA.LDIF FILTER..";

/// The directory that two texts make.
fn directory_of(alloc: Global, conf: &[u8], data: &[u8]) -> Result<Directory> {
    let Ok(conf) = read_conf(alloc, conf) else {
        return Err(Error::msg("dir.conf has a fault"));
    };
    let mut source = TrySource::new(data, 65_536, None);
    let Ok(dir) = load(alloc, conf, &mut source) else {
        return Err(Error::msg("data.ldif doesn't load"));
    };
    Ok(dir)
}

/// A filter under the configuration of a directory.
fn prepared(alloc: Global, dir: &Directory, text: &str) -> Result<Prepared>
    ensures { IfOk result (λ p. p.conf ≡ dir.now.conf) }
{
    let Ok(filter) = read_filter(alloc, text.as_bytes()) else {
        return Err(Error::msg("a word is no filter"));
    };
    Ok(prepare(alloc, &filter, dir.conf())?)
}

/// A line: the nanoseconds by the index, by the scan and in order, how many entries the first two tested, and how many were found.
fn print_row(rt: &(impl Clock + Print), alloc: Global, both: &Both<'_>, text: &str) -> Result<()> {
    let filter = prepared(alloc, both.directory, text)?;
    let by_index = best_of(rt, alloc, both, &filter, Search::ByIndex)?;
    let by_scan = best_of(rt, alloc, both, &filter, Search::ByScan)?;
    let in_order = best_of(rt, alloc, both, &filter, Search::InOrder)?;
    println!(rt;
        "{:>12}{:>12}{:>12}{:>9}{:>9}{:>9}  {}",
        by_index.nanoseconds,
        by_scan.nanoseconds,
        in_order.nanoseconds,
        by_index.tested,
        by_scan.tested,
        by_index.found,
        text
    )?;
    Ok(())
}

/// A line for each filter.
fn print_rows(
    rt: &(impl Clock + Print),
    alloc: Global,
    dir: &Directory,
    filters: &[String],
) -> Result<()> {
    let ordered = dir.in_order(alloc)?;
    let both = Both {
        directory: dir,
        ordered,
    };
    println!(rt; "    by index     by scan    in order   tested   tested    found  filter")?;
    for filter in filters {
        print_row(rt, alloc, &both, filter.as_str())?;
    }
    Ok(())
}

fn main(rt: HostRuntime) -> Result<()> {
    let alloc = rt.alloc();
    let words: Vec<String> = env::args(&rt)?.collect(alloc)?;
    let [_, conf, data, filters @ ..] = words.as_slice() else {
        println!(rt; "{HELP}")?;
        return Ok(());
    };
    let conf = fs::read(&rt, conf.as_str())?;
    let data = fs::read(&rt, data.as_str())?;
    let dir = directory_of(alloc, &conf, &data)?;
    print_rows(&rt, alloc, &dir, filters)
}
