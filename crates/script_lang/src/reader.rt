//! The script that bytes are.
ghost use Rattle.std.specs.Prelude.{◌≡◌, ◌≤◌, ◌+◌, length, IfOk, IfErr, OnOk, OnErr, IsErrOf, Ok};
ghost use Rattle.script_lang.specs.Fields.{IsShort};
ghost use Rattle.script_lang.specs.Grammar as grammar;
ghost use Rattle.script_lang.specs.Layout as layout;
ghost use Rattle.script_lang.specs.Proper.{IsProper, IsServed};
ghost use Rattle.script_lang.specs.Before.{MayDeclare, before_next, nodes_of};
ghost use Rattle.script_lang.specs.Headers.{IsProperHeaderLine};
ghost use Rattle.script_lang.specs.Reading.{MayAdd, Refuses, RefusesAt, SaysSomething};

use crate::before::Before;
use crate::bytes::cut;
use crate::fault::ScriptFault;
use crate::lines::{Line, line_of};
use crate::script::{Command, Commands, Header, HeaderLine, Script};
use std::alloc::{AllocError, Global};
use std::marker::Model;

/// The script that the bytes are. `At` is the first bad line, counted from 1, and its cause. `NoMemory` is the
/// allocator's refusal, which comes only where the first line that isn't passed over is good.
pub fn parse(alloc: Global, bytes: &[u8]) -> Result<Script, ScriptFault>
    requires { IsShort bytes.now }
    ensures ok { IfOk result (λ script. grammar.script_of bytes.now ≡ Ok script) }
    ensures err { IfErr result (Refuses (grammar.script_of bytes.now)) }
    ensures memory { IsErrOf result ScriptFault.NoMemory
        → SaysSomething (grammar.first_said (layout.lines_of bytes.now)) }
    ensures proper { IfOk result IsProper }
    ensures served { IfOk result IsServed }
    ensures short { IfOk result (λ script. length script.commands ≤ length bytes.now) }
{
    let mut reader = Reader::new(alloc);
    let mut rest = bytes;
    let mut line = 1u64;
    while let Some((text, behind)) = cut(rest, b'\n') {
        reader.read(alloc, line, without_return(text))?;
        rest = behind;
        line += 1;
    }
    // Behind the last line feed there may be nothing.
    if !rest.is_empty() {
        reader.read(alloc, line, rest)?;
    }
    Ok(reader.finish())
}

/// What stands before a carriage return at the end.
fn without_return(text: &[u8]) -> &[u8]
    ensures { result.now ≡ layout.without_return text.now }
{
    if text.is_empty() || text[text.len() - 1] != b'\r' {
        return text;
    }
    &text[..text.len() - 1]
}

/// The script of the lines so far.
#[derive(Drop)]
struct Reader {
    header: Header,
    commands: Commands,
    before: Before,
}

impl Model for Reader {
    ghost use Rattle.std.specs.Prelude.{◌≡◌};
    ghost use Rattle.script_lang.specs.Before.{before_next};
    ghost use Rattle.script_lang.specs.declared.script.Script.{Script};

    ghost Value = { Script };

    ghost view = { λ r. record { header = r.header; commands = r.commands } };

    ghost invariant = { λ r. r.before ≡ before_next r.header r.commands };
}

impl Reader {
    fn new(alloc: Global) -> Reader
        ensures { result ≡ grammar.empty_script }
    {
        Reader {
            header: Header::new(alloc),
            commands: Commands::new(alloc),
            before: Before::nothing(),
        }
    }

    /// Reads one line more, of that number.
    fn read(&mut self, alloc: Global, line: u64, text: &[u8]) -> Result<(), ScriptFault>
        requires { IsShort text.now }
        ensures ok { OnOk result (grammar.script_after self.old text.now ≡ Ok self.new) }
        ensures err { IfErr result (RefusesAt line
            (grammar.line_of (before_next self.old.header self.old.commands) text.now)) }
        ensures short { OnOk result (length self.new.commands ≤ length self.old.commands + 1) }
    {
        match line_of(alloc, &self.before, text) {
            Err(fault) => Err(fault.at(line)),
            Ok(said) => {
                self.add(said)?;
                Ok(())
            }
        }
    }

    /// Adds what a line says.
    fn add(&mut self, said: Line) -> Result<(), AllocError>
        requires { MayAdd self.old said }
        ensures ok { OnOk result (self.new ≡ grammar.with_line self.old said) }
        ensures err { OnErr result (SaysSomething (Ok said)) }
    {
        match said {
            Line::Nothing => Ok(()),
            Line::Header(said) => self.add_header(said),
            Line::Command(said) => self.add_command(said),
        }
    }

    fn add_header(&mut self, said: HeaderLine) -> Result<(), AllocError>
        requires declares { MayDeclare (nodes_of self.old.header) said }
        requires ranges { IsProperHeaderLine said }
        ensures { OnOk result (self.new ≡ grammar.with_line self.old (Line.Header said)) }
    {
        let before = self.before.after_header(&said);
        self.header.push(said)?;
        self.before = before;
        Ok(())
    }

    fn add_command(&mut self, said: Command) -> Result<(), AllocError>
        ensures { OnOk result (self.new ≡ grammar.with_line self.old (Line.Command said)) }
    {
        self.commands.push(said)?;
        self.before = self.before.after_command();
        Ok(())
    }

    fn finish(self) -> Script
        ensures { result ≡ self }
    {
        let Reader {
            header,
            commands,
            before: _,
        } = self;
        Script { header, commands }
    }
}
