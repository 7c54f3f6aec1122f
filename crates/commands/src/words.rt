//! The words of the command line.

ghost use Rattle.std.specs.Prelude.{◌≡◌, IfOk, false};
ghost use Rattle.clap.specs.Words.{app_of, rule_of};
ghost use Rattle.commands.specs.Words.{IsLocal, interface_rule, number_rule, option_rule, optional_rule, program_app, range_rule, run_app, with_router, with_turn, work_app};

use crate::with_example;
use clap::builder::ValueParser;
use clap::{Arg, ArgAction, Command};
use std::alloc::{AllocError, Global};

/// The text of `--version` after a program's name: its version, and the logic of its proof. Which
/// toolchain built the program it can't know.
pub static VERSION: &str = "0.1.0, proved in the logic dac8208d650f15bf";

/// The end of the program's long help.
static PROGRAM_HELP: &str = "\
Without a command, 'run' is meant. Times are seconds since 1970, keys, payloads and packets \
hexadecimal digits, two for each byte, and an AS is written as 1-ff00:0:111.

The status is 0 if the command was done, 2 if the words are refused or ask for help, and 1 after \
any other fault. The message about a fault goes to standard error.

Example: a network of one AS, whose clock is set to second 1000; answered by 'topology ok' and 'ok'
  printf '%s\\n' \\
    '{\"ases\":[{\"ia\":\"1-ff00:0:110\",\"core\":true,\"exp\":63,\"key\":\"6130\",\"routers\":1}],\
\"links\":[]}' \\
    '{\"do\":\"tick\",\"now\":1000}' | scionet

Example: at second 21701, a packet that stands in the file packet.hex and came from a host
  scionet step --ia 1-ff00:0:111 --router 0 --key 6b --now 21701 \
--from host 2,parent,0,up < packet.hex";

/// The end of the long help of `step`.
static STEP_HELP: &str = "\
The packet is 8 bytes of the destination's address, 8 of the source's, the path header and the \
payload, in hexadecimal, with or without blanks at both ends; at most 67,108,864 bytes of text. \
The answer is one line: 'link IF HEX' (it leaves over the link of interface IF), 'router N HEX' \
(it goes to router N of the AS), 'deliver HEX', or 'refused CODE NAME'. The number 90, for a \
packet without a path header, is followed by the number and name of the header's own refusal.

Example: at second 100, a packet of a host leaves 1-ff00:0:111 over interface 2, to a parent
  printf 0001ff00000001100001ff0000000111000020000000b39600000064003f00020000\
110e4c1d3dad003f00000001a1a2a3a4a5a6 |
  scionet step --ia 1-ff00:0:111 --router 0 --key 6b --now 100 --from host 2,parent,0,up";

/// The end of the long help of `run`.
static RUN_HELP: &str = with_example!(
    "\
Standard input has a topology on its first line, and on each line after it an event of its network \
or the question 'show', each a JSON object; at most 67,108,864 bytes in all. A line is answered by \
a line before more is read: the topology by 'topology ok', an event by its result, or by 'no CODE \
NAME' if it is refused; a turn in which a router refuses the packet is answered by 'refused CODE \
NAME'. A topology that is refused is answered by 'topology no CODE NAME' and ends the run.

The member 'do' is the event's word; these are the words with the other members:
  tick now               originate ia egress beta0  extend beacon ia egress
  terminate beacon ia    sweep                      ask src dst limit
  send payload ask path  back payload packet        turn packet
  lose packet            alter packet at xor        cut ia if
  mend ia if             rotate key ia              show packet

Beacons, answers, their paths and packets are named by their numbers, from 0. 'now' is in seconds \
since 1970, 'exp' a lifetime of (exp + 1) times 337.5 seconds, 'limit' 1 to 64 paths, 'key' 1 to \
64 bytes and 'payload' up to 1,024 bytes, both in hexadecimal. An 'ask' may have a policy: 'acl', \
a list of texts, and 'sequence', a text; or 'options', a list of objects with these and 'weight'.

Example: a packet from an AS to its parent, delivered in two turns
  printf '%s\\n' \\
",
    " \\
    '{\"do\":\"turn\",\"packet\":0}' '{\"do\":\"turn\",\"packet\":0}' | scionet run
which is answered by
  topology ok
  ok
  beacon 0
  segment new
  ask 0 1; 1-ff00:0:111#0,1 1-ff00:0:110#1,0
  packet 0
  link 1
  delivered"
);

/// The end of the long help of `work`.
static WORK_HELP: &str = with_example!(
    "\
Standard input has the lines of 'run' that prepare a network: all but 'turn', 'lose', 'alter', \
'back' and 'show', which are answered by 'no 140 BadLine'. They are answered as 'run' answers \
them. Then worker threads carry the packets that were sent through this network, at its current \
second: 1 to 8 workers, each with an inbox of SLOTS places.

After the replies comes a line for each packet, in their order: 'flight N delivered TURNS', \
'flight N refused CODE NAME', or 'flight N dropped', if its next inbox was full; none is \
dropped if an inbox has a place for each packet.

Example: two packets from an AS to its parent, each delivered in two turns
  printf '%s\\n' \\
",
    " \\
    '{\"do\":\"send\",\"ask\":0,\"path\":0,\"payload\":\"\"}' |
  scionet work --workers 2 --slots 2
whose last answers are
  flight 0 delivered 2
  flight 1 delivered 2"
);

/// An option that has a value and is not required.
fn optional<'a>(alloc: Global, name: &'a str, value: &'a str, help: &'a str) -> Arg<'a>
    ensures rule { rule_of result ≡ optional_rule name.entry.now }
    ensures local { result.global ≡ false }
{
    Arg::new(alloc, name)
        .long(name)
        .value_name(value)
        .help(help)
}

/// A required option that has a value.
fn option<'a>(alloc: Global, name: &'a str, value: &'a str, help: &'a str) -> Arg<'a>
    ensures rule { rule_of result ≡ option_rule name.entry.now }
    ensures local { result.global ≡ false }
{
    optional(alloc, name, value, help).required(true)
}

/// A required option whose value is a number from `low` to `most`.
fn range_option<'a>(
    alloc: Global,
    low: u32,
    most: u32,
    name: &'a str,
    value: &'a str,
    help: &'a str,
) -> Arg<'a>
    ensures rule { rule_of result ≡ range_rule low most name.entry.now }
    ensures local { result.global ≡ false }
{
    option(alloc, name, value, help).value_parser(ValueParser::Signed(
        i64::from(low),
        i64::from(most),
    ))
}

/// A required option whose value is a number from 0 to `most`.
fn number_option<'a>(
    alloc: Global,
    most: u32,
    name: &'a str,
    value: &'a str,
    help: &'a str,
) -> Arg<'a>
    ensures rule { rule_of result ≡ number_rule most name.entry.now }
    ensures local { result.global ≡ false }
{
    range_option(alloc, 0, most, name, value, help)
}

/// The interfaces of the AS.
fn interface_argument<'a>(alloc: Global) -> Arg<'a>
    ensures rule { rule_of result ≡ interface_rule }
    ensures local { result.global ≡ false }
{
    Arg::new(alloc, "interface")
        .value_name("IFACE")
        .action(ArgAction::Append)
        .help(
            "An interface of the AS: NUMBER,core|parent|child,ROUTER,up|down, its number 1 to \
             65535, what the far AS is, the router that owns it 0 to 63, and whether its link is \
             up; as 1,parent,0,up (to the AS above), 2,child,0,down (to one below) or 3,core,1,up \
             (between core ASes, owned by router 1)",
        )
}

/// The command with the options of a router and its AS.
fn with_router<'a>(alloc: Global, command: Command<'a>) -> Result<Command<'a>, AllocError>
    ensures app { IfOk result (λ c. app_of c ≡ with_router (app_of command.entry)) }
    ensures local { IsLocal command.entry → IfOk result (λ c. IsLocal c) }
{
    // An argument is made where it is added, so that none has to be given up if another fails.
    command
        .arg(option(
            alloc,
            "ia",
            "IA",
            "The address of the router's AS, as 1-ff00:0:111",
        ))?
        .arg(number_option(
            alloc,
            63,
            "router",
            "N",
            "The router's number in its AS, 0 to 63",
        ))?
        .arg(option(
            alloc,
            "key",
            "HEX",
            "The AS's key, 1 to 64 bytes in hexadecimal",
        ))?
        .arg(optional(
            alloc,
            "previous",
            "HEX",
            "The AS's key before that one, which it accepts too",
        ))
}

/// The command with the options of a router's turn: of the router, the second, the packet's
/// arrival, and the interfaces. [`turn`](crate::turn) reads them. `AllocError` if memory runs out.
pub fn with_turn<'a>(alloc: Global, command: Command<'a>) -> Result<Command<'a>, AllocError>
    ensures app { IfOk result (λ c. app_of c ≡ with_turn (app_of command.entry)) }
    ensures local { IsLocal command.entry → IfOk result (λ c. IsLocal c) }
{
    with_router(alloc, command)?
        .arg(number_option(
            alloc,
            u32::MAX,
            "now",
            "T",
            "The time, in seconds since 1970",
        ))?
        .arg(option(
            alloc,
            "from",
            "host|inside|IF",
            "How the packet came: from a host, from inside the AS, or over the link of interface \
             IF, 1 to 65535",
        ))?
        .arg(interface_argument(alloc))
}

/// The command `run`.
fn run_command<'a>(alloc: Global) -> Command<'a>
    ensures app { app_of result ≡ run_app }
    ensures local { IsLocal result }
{
    Command::new(alloc, "run")
        .about("Runs a network: one event for each line of standard input; also without words")
        .after_long_help(RUN_HELP)
}

/// The command `work`.
fn work_command<'a>(alloc: Global) -> Result<Command<'a>, AllocError>
    ensures app { IfOk result (λ c. app_of c ≡ work_app) }
    ensures local { IfOk result (λ c. IsLocal c) }
{
    Command::new(alloc, "work")
        .arg(number_option(
            alloc,
            u32::MAX,
            "workers",
            "N",
            "The number of workers, 1 to 8; another is refused after the lines were answered",
        ))?
        .arg(range_option(
            alloc,
            1,
            4_096,
            "slots",
            "K",
            "The places of each worker's inbox, 1 to 4,096",
        ))
}

/// The whole command line.
pub(crate) fn program<'a>(alloc: Global) -> Result<Command<'a>, AllocError>
    ensures { IfOk result (λ c. app_of c ≡ program_app) }
{
    Command::new(alloc, "scionet")
        .bin_name("scionet")?
        .no_binary_name(true)
        .version(VERSION)
        .about("A SCION network in one process")
        .after_long_help(PROGRAM_HELP)
        .subcommand(
            with_turn(alloc, Command::new(alloc, "step"))?
                .about("Takes one router's turn over the packet in hexadecimal on standard input")
                .after_long_help(STEP_HELP),
        )?
        .subcommand(run_command(alloc))?
        .subcommand(
            work_command(alloc)?
                .about("Runs a network, and then carries its packets on several threads")
                .after_long_help(WORK_HELP),
        )
}
