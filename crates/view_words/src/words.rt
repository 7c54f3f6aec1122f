//! The words of the command line.

use crate::extent_words::{centre_group, extent_in, extent_options};
use crate::packet_words::{capture_command, info_in, info_options, unwanted_info, wrap_command};
use crate::report_words::{report_command, report_in};
use crate::turn_words::bad_turn;
use crate::view::{Subject, View};
use beacon_lines::{BeaconingOptions, MAX_PER_PAIR};
use clap::builder::ValueParser;
use clap::{Arg, ArgAction, ArgGroup, ArgMatches, Command};
use commands::{VERSION, WordsFault, explain_refusal, turn, with_example, with_turn};
use path_segment::MAX_SEGMENT_LEN;
use std::alloc::{AllocError, Global};
use step_line::number;

/// The end of the long help of `packet`.
static PACKET_HELP: &str = "\
The words and the packet are those of 'scionet step'. Each field of the packet is on a line, its \
bytes in hexadecimal and what they say; then each check that the router makes, with both sides, up \
to the first that fails; and the last line is the one that 'scionet step' prints.

With --whole the packet is as it is on the wire, with the common header and the address header of \
SCION, and so it is printed after the turn.

With --packet, and no words of a turn, standard input has the lines of 'scionet run'. Of the \
packet, as it is after the last of them, a line says where it is, and another one which hops it has \
passed; then come its fields, and, if a router has it, the checks of that router at the second of \
the run and the line of its turn. With --whole too it is the packet that 'wrap' prints, with the \
hosts and the next header of the options. That there is no such packet is a fault, \
'no 130 NoPacket'.

Example: at second 100, a packet of a host leaves 1-ff00:0:111 over interface 2, to a parent
  printf 0001ff00000001100001ff0000000111000020000000b39600000064003f00020000\
110e4c1d3dad003f00000001a1a2a3a4a5a6 |
  scionet_view packet --ia 1-ff00:0:111 --router 0 --key 6b --now 100 --from host 2,parent,0,up";

/// The end of the long help of `network`.
static NETWORK_HELP: &str = "\
Standard input has the lines of 'scionet run'. The picture is that of the network after the last \
of them, in the language DOT: 'dot -Tsvg' of graphviz draws it. More than 20 ASes are drawn without \
routers, and more than 60 in layers, by their distance from the core. With --packet the links that \
this packet has passed are red, and so is the router at which it is or which refused it. With \
--answer the links of a path of this answer are red.

With --isd, --around or --core the picture shows this part alone, with --hops N also what is at most \
N links from there. An AS at the other end of a link that leaves the part is gray.

That no AS of the topology is named is a fault, 'no 14 UnknownAs', and so is that there is no such \
packet or path, 'no 130 NoPacket' or 'no 133 NoAnswer'.

Example: a network of one AS
  printf '%s\\n' \\
    '{\"ases\":[{\"ia\":\"1-ff00:0:110\",\"core\":true,\"exp\":63,\"key\":\"6130\",\"routers\":1}],\
\"links\":[]}' | scionet_view network | dot -Tsvg > network.svg";

/// The end of the long help of `path`.
static PATH_HELP: &str = with_example!(
    "\
Standard input has the lines of 'scionet run'. Of the packet, as it is after the last of them, \
each piece of its path is on a line, 'piece N up|core|down from IA to IA'; then its kind, a letter \
for each piece, as UCD; its walk, hop by hop, each as 'IA#IN,OUT'; the last second at which all of \
its hops are live; and its fields as 'packet' prints them. That there is no such packet is a fault, \
'no 130 NoPacket'.

With --answer the same is printed of a path of this answer, with the fields of a packet without \
payload. Before them is a line that says whether a packet may be sent on it now: 'send: ok', with \
each link of the path that is down, where the packet would be refused; or \
'send: no' with the number and the name of the refusal, the rule that is broken, and the hop that \
breaks it. That there is no such path is a fault, 'no 133 NoAnswer'.

Example: a packet from an AS to its parent
  printf '%s\\n' \\
",
    " |
  scionet_view path --packet 0
which begins with
  piece 0 up from 1-ff00:0:111 to 1-ff00:0:110
  kind U
  walk 1-ff00:0:111#0,1 1-ff00:0:110#1,0
  live up to second 22600"
);

/// The end of the long help of `beacons`.
static BEACONS_HELP: &str = "\
Standard input has a topology, a JSON text of one or more lines. What is printed is a text for \
'scionet run': the topology on one line, the second, and the events by which each core AS begins \
beacons, and each AS ends and passes on the first that reach it. They go down over child links, \
and from core AS to core AS over core links; shorter ones come first, and then those with smaller \
interfaces. So each AS below a core AS gets segments from it, and so does each other core AS. \
Where no core AS has a link, nothing is begun, and a line on standard error says so.

Example: the segments of a network of one AS, of which there are none
  printf '%s\\n' \\
    '{\"ases\":[{\"ia\":\"1-ff00:0:110\",\"core\":true,\"exp\":63,\"key\":\"6130\",\"routers\":1}],\
\"links\":[]}' | scionet_view beacons | scionet run";

/// The end of the long help of `explain`.
static EXPLAIN_HELP: &str = "\
Standard input has the lines of 'scionet run'. For each line that it refuses there is a line: its \
number, the reply, the place in it, what stands there, and what is wanted or which rule is broken. \
Of a turn at which a router refuses the packet it is the check that failed, and the line that cut \
the link, changed the key or altered the packet. Lines with 'warning:' tell of members that nobody \
reads or that stand twice, of addresses that no AS has, and of requests that have no path, or one \
over a link that is down. Nothing is said of lines that are right. The status is 3 if something was \
found, and 0 if nothing was.

With --json each finding is an object on a line, with the members column, found, line, member, \
name, refusal, reply, text and wanted; those that are not known are null.

Example: a key with an odd number of digits
  printf '%s\\n' \\
    '{\"ases\":[{\"ia\":\"1-ff00:0:110\",\"core\":true,\"exp\":63,\"key\":\"6130\",\"routers\":1}],\
\"links\":[]}' | sed s/6130/613/ | scionet_view explain
which prints
  line 1: topology no 11 BadField: ases[0].key: found \"613\", wanted an even number of \
hexadecimal digits for 1 to 64 bytes";

/// The command `packet`: with the turn of a router, or with `--packet`.
fn packet_command<'a>(alloc: Global) -> Result<Command<'a>, AllocError> {
    let whole = Arg::new(alloc, "whole")
        .long("whole")
        .action(ArgAction::SetTrue)
        .help("The packet is a whole one, with its common header and its address header");
    let help = "Instead of the words of a turn: the number of a packet of the lines of a run";
    let turn = [
        "ia",
        "router",
        "key",
        "previous",
        "now",
        "from",
        "interface",
    ];
    let of_run = place_option(alloc, "packet", help).conflicts_with_all(&turn)?;
    let options = info_options(alloc)?;
    let command = Command::new(alloc, "packet")
        .about("Shows a packet field by field, and what a router checks of it")
        .after_long_help(PACKET_HELP);
    with_turn(alloc, command)?
        .arg(whole)?
        .arg(of_run)?
        .args(options)
}

/// The option with the number of something that the lines have made.
pub(crate) fn place_option<'a>(alloc: Global, name: &'a str, help: &'a str) -> Arg<'a> {
    Arg::new(alloc, name)
        .long(name)
        .value_name("N")
        .value_parser(ValueParser::Signed(0, i64::from(u32::MAX)))
        .help(help)
}

/// The options that name a packet or a path of an answer. A path wants the number of its answer.
fn subject_options<'a>(alloc: Global) -> Result<Vec<Arg<'a>>, AllocError> {
    let help = "The number of a path of that answer, 0 if it is not given";
    let path = place_option(alloc, "path", help).requires_arg("answer")?;
    Ok(vec![in alloc;
        place_option(alloc, "packet", "The number of a packet, from 0"),
        place_option(alloc, "answer", "The number of an answer, from 0"),
        path,
    ]?)
}

/// The rule that a packet or an answer is named, and not both.
fn subject_group<'a>(alloc: Global, is_required: bool) -> Result<ArgGroup<'a>, AllocError> {
    ArgGroup::new(alloc, "subject")
        .required(is_required)
        .arg("packet")?
        .arg("answer")
}

/// The command of this name about the network that the lines lead to. Its options are made before
/// it, so that it has not to be given up if one of them fails.
fn network_command<'a>(
    alloc: Global,
    name: &'a str,
    about: &'a str,
    help: &'a str,
    is_required: bool,
) -> Result<Command<'a>, AllocError> {
    let group = subject_group(alloc, is_required)?;
    let options = subject_options(alloc)?;
    Command::new(alloc, name)
        .about(about)
        .after_long_help(help)
        .args(options)?
        .group(group)
}

/// The command `network`, which also says which part is shown.
fn picture_command<'a>(alloc: Global, about: &'a str) -> Result<Command<'a>, AllocError> {
    let group = centre_group(alloc)?;
    let options = extent_options(alloc)?;
    network_command(alloc, "network", about, NETWORK_HELP, false)?
        .args(options)?
        .group(group)
}

/// An option with a number in a range, which is `default` if it is not given.
pub(crate) fn range_option<'a>(
    alloc: Global,
    name: &'a str,
    range: (i64, i64),
    default: &'a str,
    help: &'a str,
) -> Arg<'a> {
    Arg::new(alloc, name)
        .long(name)
        .value_name("N")
        .value_parser(ValueParser::Signed(range.0, range.1))
        .help(help)
        .default_value(default)
}

/// The command `beacons`.
fn beacons_command<'a>(alloc: Global) -> Result<Command<'a>, AllocError> {
    let most = MAX_PER_PAIR as i64;
    let help = "How many segments an AS gets from one core AS";
    let per_pair = range_option(alloc, "per-pair", (1, most), "4", help);
    let most = MAX_SEGMENT_LEN as i64;
    let help = "The most entries of a core segment";
    let core_length = range_option(alloc, "core-length", (2, most), "63", help);
    let help = "The second at which all beacons are begun";
    let now = range_option(alloc, "now", (0, i64::from(u32::MAX)), "0", help);
    Command::new(alloc, "beacons")
        .about("Prints the lines of a complete beaconing of the topology on standard input")
        .after_long_help(BEACONS_HELP)
        .args(vec![in alloc; per_pair, core_length, now]?)
}

/// The command `explain`.
fn explain_command<'a>(alloc: Global) -> Result<Command<'a>, AllocError> {
    let about = "Says what is wrong with the lines on standard input that are refused";
    let json = Arg::new(alloc, "json")
        .long("json")
        .action(ArgAction::SetTrue)
        .help("Prints each finding as a JSON object on a line");
    Command::new(alloc, "explain")
        .about(about)
        .after_long_help(EXPLAIN_HELP)
        .arg(json)
}

/// The commands of the program.
fn commands<'a>(alloc: Global) -> Result<Vec<Command<'a>>, AllocError> {
    let mut commands = Vec::with_capacity(alloc, 8)?;
    commands.push_reserved(packet_command(alloc)?);
    let about = "Draws the network that the lines on standard input lead to";
    commands.push_reserved(picture_command(alloc, about)?);
    let about = "Shows the path of a packet of that network or of an answer, field by field";
    commands.push_reserved(network_command(alloc, "path", about, PATH_HELP, true)?);
    commands.push_reserved(report_command(alloc)?);
    commands.push_reserved(beacons_command(alloc)?);
    commands.push_reserved(wrap_command(alloc)?);
    commands.push_reserved(capture_command(alloc)?);
    commands.push_reserved(explain_command(alloc)?);
    Ok(commands)
}

/// The whole command line.
fn program<'a>(alloc: Global) -> Result<Command<'a>, AllocError> {
    let commands = commands(alloc)?;
    Command::new(alloc, "scionet_view")
        .bin_name("scionet_view")?
        .no_binary_name(true)
        .version(VERSION)
        .about("Shows what a SCION network does")
        .arg_required_else_help(true)
        .subcommands(commands)
}

/// The fault of words that `clap` accepts and that are no command.
fn usage(alloc: Global) -> Result<WordsFault, AllocError> {
    let text = "scionet_view: no view is named: 'scionet_view --help' lists them\n";
    Ok(WordsFault::Usage(String::from_str(alloc, text)?))
}

/// The number in the option of this name, if it is given and can be read.
fn number_in(matches: &ArgMatches<'_>, name: &str) -> Option<u32> {
    let number = number(matches.get_str(name)?, 0, u64::from(u32::MAX))?;
    Some(number as u32)
}

/// What the matches of `network` or `path` name.
fn subject_in(matches: &ArgMatches<'_>) -> Option<Subject> {
    if let Some(packet) = number_in(matches, "packet") {
        return Some(Subject::Packet(packet));
    }
    let answer = number_in(matches, "answer")?;
    let path = number_in(matches, "path").unwrap_or(0);
    Some(Subject::Answer { answer, path })
}

/// The view of the matches of `path`, if they name something.
fn path(matches: &ArgMatches<'_>) -> Option<View> {
    Some(View::Path(subject_in(matches)?))
}

/// The beaconing of the matches of `beacons`.
fn beacons(matches: &ArgMatches<'_>) -> Option<View> {
    Some(View::Beacons(BeaconingOptions {
        per_pair: number_in(matches, "per-pair")? as usize,
        core_len: number_in(matches, "core-length")? as usize,
        now: number_in(matches, "now")?,
    }))
}

/// The view of a packet of a run as a whole one, if its numbers can be read.
fn whole_packet_of_run(
    alloc: Global,
    matches: &ArgMatches<'_>,
    number: u32,
) -> Result<Option<View>, WordsFault> {
    match info_in(alloc, matches)? {
        Some(info) => Ok(Some(View::WholePacketOfRun(info, number))),
        None => Ok(None),
    }
}

/// The view of the matches of `packet`, if its numbers can be read. The fault tells which word
/// gives no turn.
fn packet(alloc: Global, matches: &ArgMatches<'_>) -> Result<Option<View>, WordsFault> {
    let number = number_in(matches, "packet");
    let is_whole = matches.get_flag("whole");
    if let Some(number) = number
        && is_whole
    {
        return whole_packet_of_run(alloc, matches, number);
    }
    if let Some(fault) = unwanted_info(alloc, matches)? {
        return Err(fault);
    }
    if let Some(number) = number {
        return Ok(Some(View::PacketOfRun(number)));
    }
    let Some(command) = turn(alloc, matches)? else {
        return Err(bad_turn(alloc, matches)?);
    };
    if is_whole {
        return Ok(Some(View::WholePacket(command)));
    }
    Ok(Some(View::Packet(command)))
}

/// The view of the matches of `wrap`, if their numbers can be read.
fn wrap(alloc: Global, matches: &ArgMatches<'_>) -> Result<Option<View>, WordsFault> {
    let Some(number) = number_in(matches, "packet") else {
        return Ok(None);
    };
    match info_in(alloc, matches)? {
        Some(info) => Ok(Some(View::Wrap(info, number))),
        None => Ok(None),
    }
}

/// The view of the matches, if there is one.
fn view_in(alloc: Global, matches: &ArgMatches<'_>) -> Result<Option<View>, WordsFault> {
    let Some((name, given)) = matches.subcommand() else {
        return Ok(None);
    };
    if name == "network" {
        let extent = extent_in(alloc, given)?;
        return Ok(Some(View::Network(extent, subject_in(given))));
    }
    if name == "path" {
        return Ok(path(given));
    }
    if name == "report" {
        return Ok(report_in(alloc, given)?.map(View::Report));
    }
    if name == "beacons" {
        return Ok(beacons(given));
    }
    if name == "explain" {
        let is_json = given.get_flag("json");
        return Ok(Some(View::Explain { is_json }));
    }
    if name == "wrap" {
        return wrap(alloc, given);
    }
    if name == "capture" {
        return Ok(info_in(alloc, given)?.map(View::Capture));
    }
    packet(alloc, given)
}

/// The view of the words after the program's name.
///
/// [`WordsFault::Usage`] with the text of `clap`, if it refuses the words or they ask for help. The
/// same fault with a text that no view is named, if a number can't be read; with a refusal's
/// number, name and sentence, if an address or a policy is refused; and with what was
/// found and wanted, if a word of a turn can't be read, or a host of a whole packet is no
/// address.
/// [`WordsFault::Memory`] if memory runs out.
pub fn read_view<'a>(alloc: Global, words: &'a [&'a str]) -> Result<View, WordsFault> {
    let matches = match program(alloc)?.try_get_matches_from(words) {
        Ok(matches) => matches,
        Err(error) => return Err(explain_refusal(alloc, &error)),
    };
    match view_in(alloc, &matches)? {
        Some(view) => Ok(view),
        None => Err(usage(alloc)?),
    }
}
