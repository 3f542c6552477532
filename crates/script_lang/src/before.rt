//! What stands before a line.
ghost use Rattle.std.specs.Prelude.{◌≡◌, [], false};
ghost use Rattle.script_lang.specs.Before.{after_command, after_header, before_next, MayDeclare};

use crate::script::HeaderLine;
use cluster_types::NodeList;

/// What the lines before a line say of it.
#[derive(Clone, Copy)]
pub struct Before {
    /// The version in force: 1 or 2.
    pub version: u8,
    /// The nodes that are declared.
    pub nodes: NodeList,
    /// Whether a line stands before that rests on the version in force.
    pub is_settled: bool,
    /// Whether a command stands before.
    pub has_commands: bool,
}

impl Before {
    /// What stands before the first line.
    pub fn nothing() -> Before
        ensures { result ≡ before_next [] [] }
    {
        Before {
            version: 1,
            nodes: NodeList::new(),
            is_settled: false,
            has_commands: false,
        }
    }

    /// What stands before the line behind this one.
    pub fn after_header(&self, line: &HeaderLine) -> Before
        requires { MayDeclare self.now.nodes line.now }
        ensures { result ≡ after_header self.now line.now }
    {
        match line {
            HeaderLine::Script { version } => Before {
                version: *version,
                ..*self
            },
            HeaderLine::Node { node, .. } => {
                let mut nodes = self.nodes;
                nodes.push(*node);
                Before {
                    nodes,
                    is_settled: true,
                    ..*self
                }
            }
            HeaderLine::Factor { .. } | HeaderLine::Policy { .. } => Before {
                is_settled: true,
                ..*self
            },
        }
    }

    /// What stands before the line behind a command.
    pub fn after_command(&self) -> Before
        ensures { result ≡ after_command self.now }
    {
        Before {
            has_commands: true,
            ..*self
        }
    }
}
