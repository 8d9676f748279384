//! Keywords, in any case of their letters.

ghost use Rattle.std.specs.Prelude.{◌≡◌, ◌↔◌, IsTrue, map};
ghost use Rattle.std.specs.Str.{str_eq_ignore_ascii_case};
ghost use Rattle.sql_trees.specs.Keywords.{reserved_words, left_out_words};
ghost use Rattle.sql_trees.specs.Inner.Spellings.{first_spelled};
ghost use Rattle.sql_trees.specs.Words.{word_of, same_word, spellings, is_reserved, is_left_out, names_aggregate};

/// What a word is to the grammar. Synonyms are one.
#[derive(Clone, Copy, PartialEq, Eq)]
pub enum Word {
    /// No keyword.
    Plain,
    /// A name; elsewhere it stands for a part of SQL that is left out.
    LeftOut,
    /// No name; it stands for a part of SQL that is left out.
    Excluded,
    And,
    As,
    Asc,
    Between,
    Create,
    Desc,
    End,
    False,
    For,
    From,
    In,
    Into,
    Is,
    Not,
    Null,
    On,
    Or,
    Order,
    Primary,
    Returning,
    Select,
    Table,
    True,
    Unique,
    Where,
    Abort,
    Begin,
    Bigint,
    Boolean,
    By,
    Commit,
    Committed,
    Conflict,
    Count,
    DeadlockTimeout,
    Delete,
    Do,
    Drop,
    Exists,
    First,
    If,
    Insert,
    Integer,
    Isolation,
    Key,
    Last,
    Level,
    Local,
    Locked,
    Max,
    Min,
    No,
    NoWait,
    Nothing,
    Nulls,
    Read,
    Repeatable,
    Rollback,
    Session,
    Set,
    Share,
    Skip,
    Start,
    Sum,
    Text,
    To,
    Transaction,
    Uncommitted,
    Unknown,
    Update,
    Values,
    Work,
}

const KEYWORDS: [(&str, Word); 131] = [
    ("begin", Word::Begin),
    ("start", Word::Start),
    ("commit", Word::Commit),
    ("end", Word::End),
    ("rollback", Word::Rollback),
    ("abort", Word::Abort),
    ("work", Word::Work),
    ("transaction", Word::Transaction),
    ("isolation", Word::Isolation),
    ("level", Word::Level),
    ("read", Word::Read),
    ("committed", Word::Committed),
    ("uncommitted", Word::Uncommitted),
    ("repeatable", Word::Repeatable),
    ("set", Word::Set),
    ("session", Word::Session),
    ("local", Word::Local),
    ("to", Word::To),
    ("deadlock_timeout", Word::DeadlockTimeout),
    ("create", Word::Create),
    ("table", Word::Table),
    ("drop", Word::Drop),
    ("if", Word::If),
    ("exists", Word::Exists),
    ("primary", Word::Primary),
    ("key", Word::Key),
    ("unique", Word::Unique),
    ("integer", Word::Integer),
    ("int", Word::Integer),
    ("int4", Word::Integer),
    ("bigint", Word::Bigint),
    ("int8", Word::Bigint),
    ("text", Word::Text),
    ("varchar", Word::Text),
    ("boolean", Word::Boolean),
    ("bool", Word::Boolean),
    ("insert", Word::Insert),
    ("into", Word::Into),
    ("values", Word::Values),
    ("update", Word::Update),
    ("delete", Word::Delete),
    ("select", Word::Select),
    ("as", Word::As),
    ("from", Word::From),
    ("where", Word::Where),
    ("order", Word::Order),
    ("by", Word::By),
    ("asc", Word::Asc),
    ("desc", Word::Desc),
    ("nulls", Word::Nulls),
    ("first", Word::First),
    ("last", Word::Last),
    ("for", Word::For),
    ("share", Word::Share),
    ("no", Word::No),
    ("nowait", Word::NoWait),
    ("skip", Word::Skip),
    ("locked", Word::Locked),
    ("on", Word::On),
    ("conflict", Word::Conflict),
    ("do", Word::Do),
    ("nothing", Word::Nothing),
    ("returning", Word::Returning),
    ("and", Word::And),
    ("or", Word::Or),
    ("not", Word::Not),
    ("is", Word::Is),
    ("in", Word::In),
    ("between", Word::Between),
    ("null", Word::Null),
    ("true", Word::True),
    ("false", Word::False),
    ("unknown", Word::Unknown),
    ("count", Word::Count),
    ("sum", Word::Sum),
    ("min", Word::Min),
    ("max", Word::Max),
    ("all", Word::Excluded),
    ("any", Word::Excluded),
    ("case", Word::Excluded),
    ("cast", Word::Excluded),
    ("check", Word::Excluded),
    ("collate", Word::Excluded),
    ("constraint", Word::Excluded),
    ("cross", Word::Excluded),
    ("default", Word::Excluded),
    ("distinct", Word::Excluded),
    ("else", Word::Excluded),
    ("except", Word::Excluded),
    ("fetch", Word::Excluded),
    ("foreign", Word::Excluded),
    ("full", Word::Excluded),
    ("group", Word::Excluded),
    ("having", Word::Excluded),
    ("ilike", Word::Excluded),
    ("inner", Word::Excluded),
    ("intersect", Word::Excluded),
    ("isnull", Word::Excluded),
    ("join", Word::Excluded),
    ("left", Word::Excluded),
    ("like", Word::Excluded),
    ("limit", Word::Excluded),
    ("natural", Word::Excluded),
    ("notnull", Word::Excluded),
    ("offset", Word::Excluded),
    ("outer", Word::Excluded),
    ("references", Word::Excluded),
    ("right", Word::Excluded),
    ("similar", Word::Excluded),
    ("then", Word::Excluded),
    ("union", Word::Excluded),
    ("using", Word::Excluded),
    ("when", Word::Excluded),
    ("window", Word::Excluded),
    ("with", Word::Excluded),
    ("alter", Word::LeftOut),
    ("copy", Word::LeftOut),
    ("deferrable", Word::LeftOut),
    ("execute", Word::LeftOut),
    ("explain", Word::LeftOut),
    ("index", Word::LeftOut),
    ("lock", Word::LeftOut),
    ("only", Word::LeftOut),
    ("prepare", Word::LeftOut),
    ("release", Word::LeftOut),
    ("savepoint", Word::LeftOut),
    ("sequence", Word::LeftOut),
    ("serializable", Word::LeftOut),
    ("truncate", Word::LeftOut),
    ("vacuum", Word::LeftOut),
    ("view", Word::LeftOut),
];

fn same_spelling(a: &str, b: &str) -> bool
    ensures { result ≡ str_eq_ignore_ascii_case a.now b.now }
{
    a.as_bytes().eq_ignore_ascii_case(b.as_bytes())
}

fn first_spelled(mut table: &[(&str, Word)], text: &str) -> Word
    ensures { result ≡ first_spelled (map (λ k. (k.0.now, k.1)) table.entry.now) text.now }
{
    while let [entry, rest @ ..] = table {
        if same_spelling(entry.0, text) {
            return entry.1;
        }
        table = rest;
    }
    Word::Plain
}

/// The keyword that is spelled so, in any case.
pub fn word_of(text: &str) -> Word
    ensures { result ≡ word_of text.now }
{
    first_spelled(&KEYWORDS, text)
}

/// Which words are in each class.
pub fn words_are_classed()
    ensures reserved { spellings is_reserved ≡ reserved_words }
    ensures left_out { spellings is_left_out ≡ left_out_words }
{}

impl Word {
    /// Whether the word is no name, unless it stands in quotes.
    #[tactic(auto, unfolding(crate::specs::Words::is_reserved))]
    pub fn is_reserved(self) -> bool
        ensures { result ≡ is_reserved self }
    {
        matches!(
            self,
            Word::Excluded
                | Word::And
                | Word::As
                | Word::Asc
                | Word::Between
                | Word::Create
                | Word::Desc
                | Word::End
                | Word::False
                | Word::For
                | Word::From
                | Word::In
                | Word::Into
                | Word::Is
                | Word::Not
                | Word::Null
                | Word::On
                | Word::Or
                | Word::Order
                | Word::Primary
                | Word::Returning
                | Word::Select
                | Word::Table
                | Word::True
                | Word::Unique
                | Word::Where
        )
    }

    /// Whether the word stands for a part of SQL that is left out, where no rule allows it.
    #[tactic(auto, unfolding(crate::specs::Words::is_left_out))]
    pub fn is_left_out(self) -> bool
        ensures { result ≡ is_left_out self }
    {
        matches!(
            self,
            Word::Excluded
                | Word::LeftOut
                | Word::Drop
                | Word::On
                | Word::Read
                | Word::Returning
                | Word::Select
        )
    }

    /// Whether the word is an aggregate's name.
    pub fn is_aggregate(self) -> bool
        ensures { result ≡ names_aggregate self }
    {
        matches!(self, Word::Count | Word::Sum | Word::Min | Word::Max)
    }

    /// Whether it is that keyword.
    pub fn is(self, other: Word) -> bool
        ensures value { result ≡ same_word self other }
        ensures same { IsTrue result ↔ (self ≡ other) }
    {
        self == other
    }
}
