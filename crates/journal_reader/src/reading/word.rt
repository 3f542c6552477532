//! The words with which lines begin.
ghost use Rattle.std.specs.Prelude.{◌≡◌, map};
ghost use Rattle.journal_reader.specs.Words as words;

/// The word with which a line begins, one for each kind of line.
#[derive(Clone, Copy, Debug, PartialEq, Eq)]
pub enum Word {
    Script,
    Factor,
    Node,
    Policy,
    Clock,
    Groups,
    Tick,
    Stop,
    Start,
    Down,
    Up,
    Quiesce,
    Unquiesce,
    Deliver,
    Repeat,
    Cut,
    Lost,
    Blocked,
    NoMessage,
    Sent,
    Full,
    Short,
    Stale,
    Spent,
    Promise,
    Enter,
    Exchanged,
    Handed,
    Settled,
    Learn,
    Drop,
    Opened,
    Refused,
    Value,
    Apply,
    Done,
    Aborted,
    Doubt,
    Merge,
    Map,
    Mapless,
    Place,
    Hash,
    Holds,
    Client,
    NoMap,
    Table,
    Calm,
    Proxy,
    Proxied,
    Unproxied,
    CallFull,
    Call,
    NoOpen,
    Again,
    Reply,
    Scan,
    NoScan,
    Rescan,
    Page,
    Scanned,
    Record,
    Unscanned,
}

/// The text of each word.
pub const WORDS: [(&[u8], Word); 63] = [
    (b"script", Word::Script),
    (b"factor", Word::Factor),
    (b"node", Word::Node),
    (b"policy", Word::Policy),
    (b"clock", Word::Clock),
    (b"groups", Word::Groups),
    (b"tick", Word::Tick),
    (b"stop", Word::Stop),
    (b"start", Word::Start),
    (b"down", Word::Down),
    (b"up", Word::Up),
    (b"quiesce", Word::Quiesce),
    (b"unquiesce", Word::Unquiesce),
    (b"deliver", Word::Deliver),
    (b"repeat", Word::Repeat),
    (b"cut", Word::Cut),
    (b"lost", Word::Lost),
    (b"blocked", Word::Blocked),
    (b"nomessage", Word::NoMessage),
    (b"sent", Word::Sent),
    (b"full", Word::Full),
    (b"short", Word::Short),
    (b"stale", Word::Stale),
    (b"spent", Word::Spent),
    (b"promise", Word::Promise),
    (b"enter", Word::Enter),
    (b"exchanged", Word::Exchanged),
    (b"handed", Word::Handed),
    (b"settled", Word::Settled),
    (b"learn", Word::Learn),
    (b"drop", Word::Drop),
    (b"opened", Word::Opened),
    (b"refused", Word::Refused),
    (b"value", Word::Value),
    (b"apply", Word::Apply),
    (b"done", Word::Done),
    (b"aborted", Word::Aborted),
    (b"doubt", Word::Doubt),
    (b"merge", Word::Merge),
    (b"map", Word::Map),
    (b"mapless", Word::Mapless),
    (b"place", Word::Place),
    (b"hash", Word::Hash),
    (b"holds", Word::Holds),
    (b"client", Word::Client),
    (b"nomap", Word::NoMap),
    (b"table", Word::Table),
    (b"calm", Word::Calm),
    (b"proxy", Word::Proxy),
    (b"proxied", Word::Proxied),
    (b"unproxied", Word::Unproxied),
    (b"callfull", Word::CallFull),
    (b"call", Word::Call),
    (b"noopen", Word::NoOpen),
    (b"again", Word::Again),
    (b"reply", Word::Reply),
    (b"scan", Word::Scan),
    (b"noscan", Word::NoScan),
    (b"rescan", Word::Rescan),
    (b"page", Word::Page),
    (b"scanned", Word::Scanned),
    (b"record", Word::Record),
    (b"unscanned", Word::Unscanned),
];

/// The word of that text.
#[tactic(auto, unfolding(crate::specs::Words::parsed_word))]
pub fn word_of(text: &[u8]) -> Option<Word>
    ensures { result ≡ words.parsed_word text.now }
{
    word_in(&WORDS, text)
}

fn word_in(mut table: &[(&[u8], Word)], text: &[u8]) -> Option<Word>
    ensures { result
        ≡ words.word_in (map (λ entry. (entry.0.now, entry.1)) table.entry.now) text.now }
{
    while let [entry, rest @ ..] = table {
        if entry.0 == text {
            return Some(entry.1);
        }
        table = rest;
    }
    None
}
