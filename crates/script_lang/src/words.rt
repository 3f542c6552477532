//! The words with which a line begins.
ghost use Rattle.std.specs.Prelude.{◌≡◌};
ghost use Rattle.script_lang.specs.Words as words;

use crate::fields::Field;

/// The word of a line.
#[derive(Clone, Copy)]
pub enum Word {
    Header(HeaderWord),
    Command(CommandWord),
}

impl Word {
    /// Whether a line of this word stands before the first command.
    pub fn is_header(self) -> bool
        ensures { result ≡ words.is_header_word self }
    {
        match self {
            Word::Header(_) => true,
            Word::Command(_) => false,
        }
    }
}

/// The word of a line that stands before the first command.
#[derive(Clone, Copy)]
pub enum HeaderWord {
    Script,
    Factor,
    Node,
    Policy,
}

/// The word of a command.
#[derive(Clone, Copy)]
pub enum CommandWord {
    Clock,
    Groups,
    Tick,
    Stop,
    Start,
    Put,
    Get,
    Del,
    ClientPut,
    ClientGet,
    ClientDel,
    Ask,
    Deliver,
    Repeat,
    Lose,
    Cut,
    Flow,
    Round,
    Calm,
    Map,
    Place,
    Hash,
    Show,
    Quiesce,
    Unquiesce,
    ProxyGet,
    ProxyPut,
    ProxyDel,
    ProxyAgain,
    CallGet,
    CallPut,
    CallDel,
    CallAgain,
    Scan,
    ScanNext,
}

/// The version's word that the field is.
pub fn word_of(version: u8, field: &Field) -> Option<Word>
    ensures { result ≡ words.word_of version field.now }
{
    let text = field.as_slice();
    if let Some(word) = word_of_both(text) {
        return Some(word);
    }
    if version == 2 { added_word(text) } else { None }
}

/// Whether lines of this word are served, where the lines before declare so many nodes.
pub fn is_served(word: Word, nodes: usize) -> bool
    ensures { result ≡ words.is_served word nodes }
{
    match word {
        Word::Header(_) => true,
        Word::Command(word) => is_command_served(word, nodes),
    }
}

fn is_command_served(word: CommandWord, nodes: usize) -> bool
    ensures { result ≡ words.is_command_served word nodes }
{
    match word {
        CommandWord::ProxyGet
        | CommandWord::ProxyPut
        | CommandWord::ProxyDel
        | CommandWord::ProxyAgain
        | CommandWord::CallGet
        | CommandWord::CallPut
        | CommandWord::CallDel
        | CommandWord::CallAgain
        | CommandWord::Scan
        | CommandWord::ScanNext => false,
        _ => true,
    }
}

fn word_of_both(text: &[u8]) -> Option<Word>
    ensures { result ≡ words.word_of_both text.now }
{
    if let Some(word) = command_word(text) {
        return Some(Word::Command(word));
    }
    let word = header_word(text)?;
    Some(Word::Header(word))
}

fn header_word(text: &[u8]) -> Option<HeaderWord>
    ensures { result ≡ words.header_word text.now }
{
    if text == b"script".as_slice() {
        return Some(HeaderWord::Script);
    }
    if text == b"factor".as_slice() {
        return Some(HeaderWord::Factor);
    }
    if text == b"node".as_slice() {
        return Some(HeaderWord::Node);
    }
    None
}

fn command_word(text: &[u8]) -> Option<CommandWord>
    ensures { result ≡ words.command_word text.now }
{
    if let Some(word) = node_word(text) {
        return Some(word);
    }
    if let Some(word) = showing_word(text) {
        return Some(word);
    }
    if let Some(word) = network_word(text) {
        return Some(word);
    }
    client_word(text)
}

/// A tick, a clock, a stop or a start of a node, or a request at it.
fn node_word(text: &[u8]) -> Option<CommandWord>
    ensures { result ≡ words.node_word text.now }
{
    if text == b"tick".as_slice() {
        return Some(CommandWord::Tick);
    }
    if text == b"put".as_slice() {
        return Some(CommandWord::Put);
    }
    if text == b"get".as_slice() {
        return Some(CommandWord::Get);
    }
    if text == b"del".as_slice() {
        return Some(CommandWord::Del);
    }
    if text == b"clock".as_slice() {
        return Some(CommandWord::Clock);
    }
    if text == b"stop".as_slice() {
        return Some(CommandWord::Stop);
    }
    if text == b"start".as_slice() {
        return Some(CommandWord::Start);
    }
    None
}

/// What shows something.
fn showing_word(text: &[u8]) -> Option<CommandWord>
    ensures { result ≡ words.showing_word text.now }
{
    if text == b"hash".as_slice() {
        return Some(CommandWord::Hash);
    }
    if text == b"show".as_slice() {
        return Some(CommandWord::Show);
    }
    if text == b"place".as_slice() {
        return Some(CommandWord::Place);
    }
    if text == b"map".as_slice() {
        return Some(CommandWord::Map);
    }
    None
}

/// What happens to messages.
fn network_word(text: &[u8]) -> Option<CommandWord>
    ensures { result ≡ words.network_word text.now }
{
    if text == b"groups".as_slice() {
        return Some(CommandWord::Groups);
    }
    if text == b"deliver".as_slice() {
        return Some(CommandWord::Deliver);
    }
    if text == b"repeat".as_slice() {
        return Some(CommandWord::Repeat);
    }
    if text == b"lose".as_slice() {
        return Some(CommandWord::Lose);
    }
    if text == b"cut".as_slice() {
        return Some(CommandWord::Cut);
    }
    if text == b"flow".as_slice() {
        return Some(CommandWord::Flow);
    }
    if text == b"round".as_slice() {
        return Some(CommandWord::Round);
    }
    if text == b"calm".as_slice() {
        return Some(CommandWord::Calm);
    }
    None
}

/// What the client does.
fn client_word(text: &[u8]) -> Option<CommandWord>
    ensures { result ≡ words.client_word text.now }
{
    if text == b"ask".as_slice() {
        return Some(CommandWord::Ask);
    }
    if text == b"cput".as_slice() {
        return Some(CommandWord::ClientPut);
    }
    if text == b"cget".as_slice() {
        return Some(CommandWord::ClientGet);
    }
    if text == b"cdel".as_slice() {
        return Some(CommandWord::ClientDel);
    }
    None
}

/// A word that version 2 has besides.
fn added_word(text: &[u8]) -> Option<Word>
    ensures { result ≡ words.added_word text.now }
{
    if text == b"policy".as_slice() {
        return Some(Word::Header(HeaderWord::Policy));
    }
    if let Some(word) = added_node_word(text) {
        return Some(Word::Command(word));
    }
    let word = added_client_word(text)?;
    Some(Word::Command(word))
}

/// The marks of a node, and requests that it passes on.
fn added_node_word(text: &[u8]) -> Option<CommandWord>
    ensures { result ≡ words.added_node_word text.now }
{
    if text == b"quiesce".as_slice() {
        return Some(CommandWord::Quiesce);
    }
    if text == b"unquiesce".as_slice() {
        return Some(CommandWord::Unquiesce);
    }
    if text == b"pget".as_slice() {
        return Some(CommandWord::ProxyGet);
    }
    if text == b"pput".as_slice() {
        return Some(CommandWord::ProxyPut);
    }
    if text == b"pdel".as_slice() {
        return Some(CommandWord::ProxyDel);
    }
    if text == b"pagain".as_slice() {
        return Some(CommandWord::ProxyAgain);
    }
    None
}

/// The client's requests that are sent as messages, and its scans.
fn added_client_word(text: &[u8]) -> Option<CommandWord>
    ensures { result ≡ words.added_client_word text.now }
{
    if text == b"oget".as_slice() {
        return Some(CommandWord::CallGet);
    }
    if text == b"oput".as_slice() {
        return Some(CommandWord::CallPut);
    }
    if text == b"odel".as_slice() {
        return Some(CommandWord::CallDel);
    }
    if text == b"again".as_slice() {
        return Some(CommandWord::CallAgain);
    }
    if text == b"scan".as_slice() {
        return Some(CommandWord::Scan);
    }
    if text == b"scannext".as_slice() {
        return Some(CommandWord::ScanNext);
    }
    None
}
