//! The words that the grammar or the language gives a meaning.
ghost use Rattle.std.specs.Prelude.{◌≡◌, map};
ghost use Rattle.std.specs.Str.{bytes_eq};
ghost use Rattle.jd_lexer.specs.Words.{is_among, kind_among, word_kind};

use jd_grammar::token::{Kind, Name, Word};

/// Words of operations that aren't built yet. A script that has one is refused as `Form` at the word, wherever it
/// stands: its token is `Kind::Later`, which no production has.
pub static LATER: [&str; 30] = [
    "myid",
    "remotecall_fetch",
    "remote_do",
    "put!",
    "isready",
    "Future",
    "workers",
    "nworkers",
    "nprocs",
    "procs",
    "RemoteChannel",
    "Channel",
    "take!",
    "close",
    "exit",
    "rmprocs",
    "WorkerPool",
    "CachingPool",
    "default_worker_pool",
    "clear!",
    "pmap",
    "DArray",
    "dzeros",
    "dones",
    "dfill",
    "distribute",
    "localpart",
    "localindices",
    "@distributed",
    "addprocs",
];

/// Each other word and macro name with its kind. Any name beside these is the script's own.
pub static WORDS: [(&str, Kind); 38] = [
    ("println", Kind::Name(Name::Word(Word::Println))),
    ("div", Kind::Name(Name::Word(Word::Div))),
    ("rem", Kind::Name(Name::Word(Word::Rem))),
    ("mod", Kind::Name(Name::Word(Word::Mod))),
    ("Int", Kind::Name(Name::Word(Word::Int))),
    ("typemax", Kind::Name(Name::Word(Word::Typemax))),
    ("typemin", Kind::Name(Name::Word(Word::Typemin))),
    // Keywords.
    ("function", Kind::Function),
    ("if", Kind::If),
    ("elseif", Kind::Elseif),
    ("else", Kind::Else),
    ("while", Kind::While),
    ("for", Kind::For),
    ("in", Kind::In),
    ("try", Kind::Try),
    ("catch", Kind::Catch),
    ("return", Kind::Return),
    ("break", Kind::Break),
    ("continue", Kind::Continue),
    ("end", Kind::End),
    ("true", Kind::True),
    ("false", Kind::False),
    ("nothing", Kind::Nothing),
    ("using", Kind::Using),
    // Other words of the grammar.
    ("Any", Kind::Name(Name::Word(Word::Any))),
    ("Channel", Kind::Name(Name::Word(Word::Channel))),
    ("Distributed", Kind::Name(Name::Word(Word::Distributed))),
    (
        "DistributedArrays",
        Kind::Name(Name::Word(Word::DistributedArrays)),
    ),
    ("RemoteChannel", Kind::Name(Name::Word(Word::RemoteChannel))),
    ("finalize", Kind::Name(Name::Word(Word::Finalize))),
    ("max", Kind::Name(Name::Word(Word::Max))),
    ("min", Kind::Name(Name::Word(Word::Min))),
    ("push!", Kind::Name(Name::Word(Word::Push))),
    ("xor", Kind::Name(Name::Word(Word::Xor))),
    // Macros.
    ("@spawnat", Kind::SpawnAt),
    ("@fetchfrom", Kind::FetchFrom),
    ("@distributed", Kind::DistributedFor),
    ("@everywhere", Kind::Everywhere),
];

/// Whether a name is that word. Most words are too long or too short, and are not compared further.
fn is_word(word: &str, name: &[u8]) -> bool
    ensures { result ≡ bytes_eq word.now name.now }
{
    word.len() == name.len() && word.as_bytes() == name
}

fn kind_among(words: &[(&str, Kind)], name: &[u8]) -> Option<Kind>
    ensures { result ≡ kind_among (map (λ w. (w.0.now, w.1)) words.now) name.now }
{
    for (word, kind) in words {
        if is_word(word, name) {
            return Some(*kind);
        }
    }
    None
}

fn is_among(words: &[&str], name: &[u8]) -> bool
    ensures { result ≡ is_among (map (λ w. w.now) words.now) name.now }
{
    for word in words {
        if is_word(word, name) {
            return true;
        }
    }
    false
}

/// The kind of a word or macro name, or none of a name that the script chose.
#[tactic(auto, unfolding(crate::specs::Words::word_kind))]
pub fn word_kind(name: &[u8]) -> Option<Kind>
    ensures { result ≡ word_kind name.now }
{
    if is_among(&LATER, name) {
        Some(Kind::Later)
    } else {
        kind_among(&WORDS, name)
    }
}
