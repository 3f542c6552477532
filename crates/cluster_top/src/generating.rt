//! Scripts that a number stands for.
ghost use Rattle.std.specs.Prelude.{◌≡◌, ◌++◌, ◌/◌, ◌%◌, ◌^◌, string_bytes, IfOk, OnOk};
ghost use Rattle.cluster_top.specs.Generating as script_text;

use cluster_types::{Bytes, NoMemory};
use std::alloc::Global;
use std::fmt::Write;

/// How many steps a generated script has.
const STEPS: u32 = 400;

/// How many rounds the groups stay apart.
const ROUNDS_APART: usize = 12;

/// The header of each generated script, and how it comes to a client that has a table.
const OPENING: &str = "factor 2\nnode 1\nnode 2\nnode 3\nnode 4\nnode 5\ncalm\nask 1\nflow\nflow\n";

/// Makes the next table of the client.
const TABLE: &str = "ask 1\nflow\nflow\n";

/// The generator's numbers: splitmix64, of which each state gives one number.
#[derive(Clone, Copy)]
struct Draws {
    state: u64,
}

impl Draws {
    fn draw(&mut self) -> u64
        ensures state { self.new.state ≡ script_text.next_state self.old.state }
        ensures drawn { result ≡ script_text.drawn_of self.new.state }
    {
        self.state = self.state.wrapping_add(0x9E37_79B9_7F4A_7C15);
        let mut z = self.state;
        z = (z ^ (z >> 30)).wrapping_mul(0xBF58_476D_1CE4_E5B9);
        z = (z ^ (z >> 27)).wrapping_mul(0x94D0_49BB_1331_11EB);
        z ^ (z >> 31)
    }
}

/// The script that the number stands for: five nodes with a factor of 2, and 400 steps of client
/// requests, clocks, restarts and splits. Each number gives a script without a bad line.
pub fn generated(alloc: Global, number: u64) -> Result<Bytes, NoMemory>
    ensures { IfOk result (λ script. script ≡ script_text.generated number) }
{
    let mut draws = Draws { state: number };
    let mut script = String::from_str(alloc, OPENING)?;
    for step in 0..STEPS {
        add_step(alloc, &mut script, step, draws.draw())?;
    }
    script.push_str("calm\n")?;
    Bytes::from_slice(alloc, script.as_bytes())
}

/// Adds the lines of one step, as the number that was drawn says.
fn add_step(alloc: Global, script: &mut String, step: u32, drawn: u64) -> Result<(), NoMemory>
    ensures { OnOk result
        (string_bytes script.new ≡ string_bytes script.old ++ script_text.step_lines step drawn) }
{
    match drawn % 16 {
        0..=7 => add_put(script, step, drawn),
        8..=9 => add_delete(script, drawn),
        10..=12 => add_get(script, drawn),
        13 => script.push_str("round\n"),
        14 => add_restart(script, drawn),
        _ => add_split(alloc, script, drawn),
    }
}

/// The node of a step.
fn node_of(drawn: u64) -> u64
    ensures { result ≡ script_text.drawn_node drawn }
{
    1 + (drawn >> 32) % 5
}

/// The number of a step's key.
fn key_of(drawn: u64) -> u64
    ensures { result ≡ (drawn / 2 ^ 8) % 200 }
{
    (drawn >> 8) % 200
}

fn add_put(script: &mut String, step: u32, drawn: u64) -> Result<(), NoMemory>
    ensures { OnOk result
        (string_bytes script.new ≡ string_bytes script.old ++ script_text.put_lines step drawn) }
{
    let node = node_of(drawn);
    let time = (drawn >> 40) % 1000;
    let key = key_of(drawn);
    write!(
        script,
        "clock {node} {time}\ncput u/k{key} v{step}\nround\n"
    )
}

fn add_delete(script: &mut String, drawn: u64) -> Result<(), NoMemory>
    ensures { OnOk result
        (string_bytes script.new ≡ string_bytes script.old ++ script_text.delete_lines drawn) }
{
    let key = key_of(drawn);
    write!(script, "cdel u/k{key}\nround\n")
}

fn add_get(script: &mut String, drawn: u64) -> Result<(), NoMemory>
    ensures { OnOk result
        (string_bytes script.new ≡ string_bytes script.old ++ script_text.get_lines drawn) }
{
    let key = key_of(drawn);
    write!(script, "cget u/k{key}\n")
}

fn add_restart(script: &mut String, drawn: u64) -> Result<(), NoMemory>
    ensures { OnOk result
        (string_bytes script.new ≡ string_bytes script.old ++ script_text.restart_lines drawn) }
{
    let node = node_of(drawn);
    write!(script, "stop {node}\nround\nstart {node}\n")
}

/// Adds the lines of a split, of its end, and of a new table after each.
#[tactic(auto, unfolding(crate::specs::Generating::split_rest))]
fn add_split(alloc: Global, script: &mut String, drawn: u64) -> Result<(), NoMemory>
    ensures { OnOk result
        (string_bytes script.new ≡ string_bytes script.old ++ script_text.split_lines drawn) }
{
    let groups = parted(1 + (drawn >> 16) % 4);
    let rounds = "round\n".repeat(alloc, ROUNDS_APART)?;
    write!(
        script,
        "{groups}{rounds}{TABLE}groups 1 2 3 4 5\ncalm\n{TABLE}"
    )
}

/// The five nodes in two groups, of which the first ends with that node, 1 to 4.
fn parted(last: u64) -> &'static str
    ensures { result.now ≡ script_text.parted last }
{
    match last {
        1 => "groups 1 | 2 3 4 5\n",
        2 => "groups 1 2 | 3 4 5\n",
        3 => "groups 1 2 3 | 4 5\n",
        _ => "groups 1 2 3 4 | 5\n",
    }
}
