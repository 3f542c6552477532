//! The command of each word.
ghost use Rattle.script_lang.specs.Forms as forms;
ghost use Rattle.script_lang.specs.Reading.{ReadsOutcome};

use super::{client, groups, network, node, showing};
use crate::before::Before;
use crate::fault::LineFault;
use crate::fields::Fields;
use crate::script::Command;
use crate::words::CommandWord;
use std::alloc::Global;

/// The command of that word.
pub fn command_line(
    alloc: Global,
    before: &Before,
    word: CommandWord,
    fields: Fields,
) -> Result<Command, LineFault>
    ensures { ReadsOutcome result (forms.command_line before.now word fields.entry) }
{
    match word {
        CommandWord::Clock => node::clock(before, fields),
        CommandWord::Groups => groups::groups(alloc, before, fields),
        CommandWord::Tick => node::tick(before, fields),
        CommandWord::Stop => node::stop(before, fields),
        CommandWord::Start => node::start(before, fields),
        CommandWord::Put => node::put(alloc, before, fields),
        CommandWord::Get => node::get(before, fields),
        CommandWord::Del => node::del(before, fields),
        CommandWord::ClientPut => client::client_put(alloc, fields),
        CommandWord::ClientGet => client::client_get(fields),
        CommandWord::ClientDel => client::client_del(fields),
        CommandWord::Ask => client::ask(before, fields),
        CommandWord::Deliver => network::deliver(fields),
        CommandWord::Repeat => network::repeat(fields),
        CommandWord::Lose => network::lose(fields),
        CommandWord::Cut => network::cut(fields),
        CommandWord::Flow => network::flow(fields),
        CommandWord::Round => network::round(fields),
        CommandWord::Calm => network::calm(fields),
        CommandWord::Map => showing::map(before, fields),
        CommandWord::Place => showing::place(fields),
        CommandWord::Hash => showing::hash(fields),
        CommandWord::Show => showing::show(before, fields),
        CommandWord::Quiesce => node::quiesce(before, fields),
        CommandWord::Unquiesce => node::unquiesce(before, fields),
        CommandWord::ProxyGet => node::proxy_get(before, fields),
        CommandWord::ProxyPut => node::proxy_put(alloc, before, fields),
        CommandWord::ProxyDel => node::proxy_del(before, fields),
        CommandWord::ProxyAgain => node::proxy_again(before, fields),
        CommandWord::CallGet => client::call_get(fields),
        CommandWord::CallPut => client::call_put(alloc, fields),
        CommandWord::CallDel => client::call_del(fields),
        CommandWord::CallAgain => client::call_again(fields),
        CommandWord::Scan => client::scan(fields),
        CommandWord::ScanNext => client::scan_next(fields),
    }
}
