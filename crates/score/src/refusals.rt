// What is turned away, for every call of the finder.

ghost use Rattle.std.specs.Prelude.{◌≡◌};
ghost use Rattle.score.specs.Refusals.{number_of};

// The rules that a call may break, in the order of their numbers: the tracks and the columns of a score and its cells, the number
// of notes of a theme and the notes, the number of lent sets and the sets, the length of a table, the room of a page, a bookmark;
// a summary of the lent sets, a pair that is listed, the room of a route, and a changed column.
#[derive(Clone, Copy, Debug, PartialEq, Eq)]
pub enum Rule {
    Tracks,
    Columns,
    Cell,
    Notes,
    Note,
    SetsLength,
    Set,
    TableLength,
    Room,
    Bookmark,
    Summary,
    Listed,
    RouteRoom,
    Column,
}

impl Rule {
    // The number under which the manual lists the rule.
    pub fn number(self) -> u8
        ensures { result ≡ number_of self }
    {
        match self {
            Rule::Tracks => 1,
            Rule::Columns => 2,
            Rule::Cell => 3,
            Rule::Notes => 4,
            Rule::Note => 5,
            Rule::SetsLength => 6,
            Rule::Set => 7,
            Rule::TableLength => 8,
            Rule::Room => 9,
            Rule::Bookmark => 10,
            Rule::Summary => 12,
            Rule::Listed => 13,
            Rule::RouteRoom => 14,
            Rule::Column => 19,
        }
    }
}

// The rule that is broken, and the place where: 0 where none is named.
#[derive(Clone, Copy, Debug, PartialEq, Eq)]
pub struct Refusal {
    pub rule: Rule,
    pub place: usize,
}

impl Refusal {
    // The refusal by a rule that names no place.
    pub fn new(rule: Rule) -> Refusal
        ensures { result ≡ record { rule = rule; place = 0 } }
    {
        Refusal { rule, place: 0 }
    }

    // The refusal by a rule that names the first place at fault.
    pub fn at(rule: Rule, place: usize) -> Refusal
        ensures { result ≡ record { rule = rule; place = place } }
    {
        Refusal { rule, place }
    }
}
