//! Named pieces of work, each done a number of times: `bench NAME COUNT`.
//!
//! Works on a packet, a path or a sequence read it from standard input; the folder `inputs` has
//! some. The program prints a count and a checksum and no time, and so the same on every machine.
//! Measure the time from outside, or count instructions.
#![tactic(auto)]

ghost use Rattle.std.specs.Prelude.{◌<◌};

mod answers;
mod boards;
mod carried;
mod daemons;
mod flights;
mod input;
mod lines;
mod network;
mod packets;
mod paths;
mod stores;

use anyhow::{Context, Result, anyhow};
use daemons::Asking;
use input::Input;
use isd_as::{AsNumber, IfId, Isd, IsdAs};
use lines::About;
use packets::Flaw;
use scion_topology::Topology;
use std::alloc::Global;
use std::sync::Wait;
use std::thread::Threads;
use std::{env, io};

/// The address of the AS of this number in the measured network.
fn address(number: u32) -> IsdAs {
    match AsNumber::new(u64::from(number)) {
        Some(as_number) => IsdAs::new(Isd(1), as_number),
        None => IsdAs::from_number(0),
    }
}

/// The network with the most ASes and links that a topology takes.
fn topology(alloc: Global) -> Result<Topology> {
    let text = network::text(alloc)?;
    Ok(Topology::from_json(alloc, text.as_bytes())?)
}

/// Reads the network's text `count` times, and sums the places of an AS.
fn read(alloc: Global, count: u32) -> Result<u64> {
    let text = network::text(alloc)?;
    let mut sum = 0u64;
    for _ in 0..count {
        let topology = Topology::from_json(alloc, text.as_bytes())?;
        let info = topology.as_info(address(network::ASES))?;
        sum = sum.wrapping_add(info.position as u64);
    }
    Ok(sum)
}

/// Asks for `count` far ends, and sums the interfaces there.
fn far_ends(alloc: Global, count: u32) -> Result<u64> {
    let topology = topology(alloc)?;
    let mut sum = 0u64;
    for turn in 0..count {
        let link = turn % network::LINKS;
        let (_, number) = topology.far_end(
            address(network::from(link)),
            IfId(network::port(link)),
        )?;
        sum = sum.wrapping_add(u64::from(number.number()));
    }
    Ok(sum)
}

/// Makes `count` views of routers, and counts those that have an interface.
fn views(alloc: Global, count: u32) -> Result<u64> {
    let topology = topology(alloc)?;
    let mut sum = 0u64;
    for turn in 0..count {
        let link = turn % network::LINKS;
        let view = topology.view(address(network::from(link)), 0)?;
        if view.entry(IfId(network::port(link))).is_some() {
            sum = sum.wrapping_add(1);
        }
    }
    Ok(sum)
}

/// Does a work on the input from standard input, `count` times.
fn work_on_input<R: io::Input>(rt: &R, alloc: Global, name: &str, count: u32) -> Result<u64> {
    let input = Input::read(rt, alloc)?;
    match name {
        "decode" => packets::decodes(&input, count),
        "step" => packets::ways(alloc, &input, 1, count),
        "way" => packets::ways(alloc, &input, usize::MAX, count),
        "whole-step" => packets::whole_ways(alloc, &input, 1, count),
        "whole-way" => packets::whole_ways(alloc, &input, usize::MAX, count),
        "whole-read" => packets::reads(alloc, &input, count),
        "bad-mac" => packets::step_flawed(alloc, &input, Flaw::Authenticator, count),
        "bad" => packets::step_flawed(alloc, &input, Flaw::Cut, count),
        "parse-seq" => paths::parses(alloc, &input, count),
        "match" => paths::matches(alloc, &input, count),
        "verify" => paths::verifies(&input, count),
        _ => Err(anyhow!("there is no work of this name")),
    }
}

/// Does a work of several threads: a thousand flights, on several workers; a lookup by each of
/// several readers of a board; a request by each of several threads to a daemon. The flights of
/// `flights` have ten turns, which four workers share as 3, 4, 2 and 1; those of `even-flights`
/// have 63, which they share evenly.
fn work_of_threads<R: Threads + Wait + Sync + io::Input>(
    rt: &R,
    alloc: Global,
    name: &str,
    count: u32,
) -> Result<u64> {
    match name {
        "flights-1" => flights::flights(rt, alloc, 1, count),
        "flights-2" => flights::flights(rt, alloc, 2, count),
        "flights-4" => flights::flights(rt, alloc, 4, count),
        "flights-8" => flights::flights(rt, alloc, 8, count),
        "even-flights-1" => flights::even_flights(rt, alloc, 1, count),
        "even-flights-2" => flights::even_flights(rt, alloc, 2, count),
        "even-flights-4" => flights::even_flights(rt, alloc, 4, count),
        "board-1" => boards::look_ups(rt, alloc, 1, count),
        "board-8" => boards::look_ups(rt, alloc, 8, count),
        "daemon-hits-1" => daemons::asks(rt, alloc, Asking::Same, 1, count),
        "daemon-hits-4" => daemons::asks(rt, alloc, Asking::Same, 4, count),
        "daemon-misses-1" => daemons::asks(rt, alloc, Asking::Different, 1, count),
        "daemon-misses-4" => daemons::asks(rt, alloc, Asking::Different, 4, count),
        _ => work_on_input(rt, alloc, name, count),
    }
}

/// Does the work of this name `count` times, with these factors: ten lines for each of `lines`,
/// five for each packet or beacon, and one for each request; ten thousand segments that are made or
/// registered. A store of 20,000 live segments is swept. The first three works on answers have 32
/// paths to choose from, and the others 2048. Packets are sent in a network over 64 hop fields, and
/// carried there by 63 turns each.
fn work<R: Threads + Wait + Sync + io::Input>(
    rt: &R,
    alloc: Global,
    name: &str,
    count: u32,
) -> Result<u64> {
    match name {
        "mac" => Ok(packets::macs(count)),
        "mac-bytes" => Ok(packets::macs_of_keys(count)),
        "read" => read(alloc, count),
        "far-ends" => far_ends(alloc, count),
        "views" => views(alloc, count),
        "answers-1" => answers::answers(alloc, 32, 1, count),
        "answers-8" => answers::answers(alloc, 32, 8, count),
        "answers-64" => answers::answers(alloc, 32, 64, count),
        "answers-1-of-2048" => answers::answers(alloc, 4, 1, count),
        "answers-8-of-2048" => answers::answers(alloc, 4, 8, count),
        "answers-64-of-2048" => answers::answers(alloc, 4, 64, count),
        "make-segments" => stores::make(alloc, count),
        "register" => stores::register(alloc, count),
        "sweep" => stores::sweep(alloc, count),
        "lookup" => stores::look_up(alloc, count),
        "copy-found" => stores::copy(alloc, count),
        "lines" => lines::lines(alloc, About::All, count),
        "packet-lines" => lines::lines(alloc, About::Packets, count),
        "beacon-lines" => lines::lines(alloc, About::Beacons, count),
        "request-lines" => lines::lines(alloc, About::Requests, count),
        "sent-64" => carried::carry_all(alloc, 0, count),
        "carried-64" => carried::carry_all(alloc, network::SECOND_END, count),
        _ => work_of_threads(rt, alloc, name, count),
    }
}

fn main(rt: HostRuntime) -> Result<()> {
    let alloc = rt.alloc();
    let mut words = env::args(&rt)?.skip(1);
    let name = words
        .next()
        .context("give the name of the work, as far-ends")?;
    let times = words.next().context("give how many times it is done")?;
    let count = times
        .parse::<u32>()
        .context("reading how many times it is done")?;
    let sum = work(&rt, alloc, name.as_str(), count)?;
    println!(rt; "{} {count} {sum}", name.as_str())?;
    Ok(())
}
