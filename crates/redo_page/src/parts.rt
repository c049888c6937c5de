//! Fixed parts of a page.

ghost use Rattle.std.specs.Prelude.{◌≡◌};
ghost use Rattle.redo_page.specs.Parts.{data_bytes, failure_bytes, list_bytes, note_bytes, part_bytes, ring_bytes};
ghost use Rattle.redo_page.specs.Parts.{number_of_word, row_bytes, run_bytes, shown_bytes, sum_bytes, tag_bytes};
ghost use Rattle.redo_page.specs.Parts.{word_bytes};

use crate::graph::GRAPH;
use crate::head::HEAD;
use crate::list_script::LIST_SCRIPT;
use crate::middle::{FRAME, HEADS, LIST_END, LIST_FORM, LIST_HEADS, MIDDLE};
use crate::script::SCRIPT;
use crate::style::STYLE;
use crate::table::TABLE;
use redo_list::State;

/// Bytes that are the same on each page where they stand.
#[derive(Clone, Copy)]
pub(crate) enum Part {
    /// What each page begins with: its policy, up to its style.
    Head,
    Style,
    /// What comes before the table.
    Middle,
    /// The heads of the table.
    Heads,
    /// What comes after the rows: the frame of the graph.
    Frame,
    /// The script that makes tables.
    Table,
    /// The script that groups and places what a graph has.
    Graph,
    /// The script of the page of a report.
    Script,
    /// The script of the page of a list.
    ListScript,
    /// The class of an outcome.
    Word(Word),
    /// An outcome as it is shown.
    Shown(Word),
    Tag(Tag),
    Run(RunPart),
    Sum(SumPart),
    Failure(FailurePart),
    Ring(RingPart),
    Note(NotePart),
    Row(RowPart),
    Data(DataPart),
    List(ListPart),
    State(State),
}

impl Part {
    pub(crate) fn bytes(self) -> &'static [u8]
        ensures { result.now ≡ part_bytes self }
    {
        match self {
            Part::Head => HEAD,
            Part::Style => STYLE,
            Part::Middle => MIDDLE,
            Part::Heads => HEADS,
            Part::Frame => FRAME,
            Part::Table => TABLE,
            Part::Graph => GRAPH,
            Part::Script => SCRIPT,
            Part::ListScript => LIST_SCRIPT,
            Part::Word(word) => word.bytes(),
            Part::Shown(word) => word.shown(),
            Part::Tag(tag) => tag.bytes(),
            Part::Run(part) => part.bytes(),
            Part::Sum(part) => part.bytes(),
            Part::Failure(part) => part.bytes(),
            Part::Ring(part) => part.bytes(),
            Part::Note(part) => part.bytes(),
            Part::Row(part) => part.bytes(),
            Part::Data(part) => part.bytes(),
            Part::List(part) => part.bytes(),
            Part::State(state) => state.word().as_bytes(),
        }
    }
}

/// What became of a target, or the class of what isn't there.
#[derive(Clone, Copy)]
pub(crate) enum Word {
    /// Built, with other bytes than before.
    Built,
    /// Built, with the same bytes as before.
    Same,
    Kept,
    Failed,
    /// Failed because something that it needs did.
    Blocked,
    Cyclic,
    Source,
    Nothing,
}

impl Word {
    pub(crate) fn bytes(self) -> &'static [u8]
        ensures { result.now ≡ word_bytes self }
    {
        match self {
            Word::Built => b"built",
            Word::Same => b"same",
            Word::Kept => b"kept",
            Word::Failed => b"failed",
            Word::Blocked => b"blocked",
            Word::Cyclic => b"cyclic",
            Word::Source => b"source",
            Word::Nothing => b"none",
        }
    }

    /// The words that are shown.
    fn shown(self) -> &'static [u8]
        ensures { result.now ≡ shown_bytes self }
    {
        match self {
            Word::Same => b"built the same",
            word => word.bytes(),
        }
    }

    /// The number that stands for it in the data.
    pub(crate) fn number(self) -> u64
        ensures { result ≡ number_of_word self }
    {
        match self {
            Word::Built => 0,
            Word::Same => 1,
            Word::Kept => 2,
            Word::Failed => 3,
            Word::Blocked => 4,
            Word::Cyclic => 5,
            Word::Source | Word::Nothing => 6,
        }
    }
}

/// What stands in several places.
#[derive(Clone, Copy)]
pub(crate) enum Tag {
    /// A link to a row, up to its number.
    Link,
    LinkText,
    LinkEnd,
    Paragraph,
    ParagraphEnd,
    SectionEnd,
    Cell,
    Blank,
    LineEnd,
    /// From the end of the style up to the heading.
    Top,
    /// What tells that there are more rows.
    More,
}

impl Tag {
    fn bytes(self) -> &'static [u8]
        ensures { result.now ≡ tag_bytes self }
    {
        match self {
            Tag::Link => b"<a href=\"#t",
            Tag::LinkText => b"\">",
            Tag::LinkEnd => b"</a>",
            Tag::Paragraph => b"<p>",
            Tag::ParagraphEnd => b"</p>\n",
            Tag::SectionEnd => b"</section>\n",
            Tag::Cell => b"<td>",
            Tag::Blank => b" ",
            Tag::LineEnd => b"\n",
            Tag::Top => b"</style>\n<main>\n<header>\n<h1>",
            Tag::More => b"Without its script this page shows only the first 500.",
        }
    }
}

/// Parts of the line that tells of the run.
#[derive(Clone, Copy)]
pub(crate) enum RunPart {
    /// The heading, up to the exit status.
    Begin,
    Requested,
    Path,
    PathEnd,
    Directory,
    DirectoryEnd,
    Jobs,
    Began,
    Took,
    /// Between seconds and hundredths of them.
    Point,
    /// Before hundredths that are less than 10.
    Zero,
    Seconds,
    Version,
    End,
}

impl RunPart {
    fn bytes(self) -> &'static [u8]
        ensures { result.now ≡ run_bytes self }
    {
        match self {
            RunPart::Begin => b"redo report</h1>\n<p class=\"run\"><span>exit status ",
            RunPart::Requested => b"</span> <span class=\"request\">requested: ",
            RunPart::Path => b"<bdi>",
            RunPart::PathEnd => b"</bdi> ",
            RunPart::Directory => b"</span> <span>in <bdi>",
            RunPart::DirectoryEnd => b"</bdi>",
            RunPart::Jobs => b"</span> <span>jobs: ",
            RunPart::Began => b"</span> <span>began ",
            RunPart::Took => b"</span> <span>took ",
            RunPart::Point => b".",
            RunPart::Zero => b"0",
            RunPart::Seconds => b" s",
            RunPart::Version => b"</span> <span>redo ",
            RunPart::End => b"</span></p>\n",
        }
    }
}

/// Parts of the summary.
#[derive(Clone, Copy)]
pub(crate) enum SumPart {
    Begin,
    /// A line, up to its class.
    Line,
    Name,
    Count,
    LineEnd,
    End,
}

impl SumPart {
    fn bytes(self) -> &'static [u8]
        ensures { result.now ≡ sum_bytes self }
    {
        match self {
            SumPart::Begin => b"<dl class=\"sum\">\n",
            SumPart::Line => b"<div class=\"",
            SumPart::Name => b"\"><dt>",
            SumPart::Count => b"<dd>",
            SumPart::LineEnd => b"</div>\n",
            SumPart::End =>
                b"</dl>\n<p class=\"go\"><a href=\"#targets\">To the targets</a> <a href=\"#graph\" hidden>To the graph</a></p>\n</header>\n",
        }
    }
}

/// Parts of the failures.
#[derive(Clone, Copy)]
pub(crate) enum FailurePart {
    Begin,
    /// A failure, up to the number of its row.
    Article,
    Name,
    NameEnd,
    /// A place, up to its file.
    File,
    Line,
    Column,
    Message,
    /// The line of a script, up to its number.
    Excerpt,
    Before,
    Marked,
    After,
    ExcerptEnd,
    ArticleEnd,
}

impl FailurePart {
    fn bytes(self) -> &'static [u8]
        ensures { result.now ≡ failure_bytes self }
    {
        match self {
            FailurePart::Begin => b"<section id=\"failures\"><h2>Failures</h2>\n",
            FailurePart::Article => b"<article id=\"f",
            FailurePart::Name => b"\"><h3>",
            FailurePart::NameEnd => b"</h3>\n",
            FailurePart::File => b"<p><bdi>",
            FailurePart::Line => b"</bdi>:",
            FailurePart::Column => b":",
            FailurePart::Message => b": ",
            FailurePart::Excerpt => b"<pre><i>",
            FailurePart::Before => b"</i>",
            FailurePart::Marked => b"<mark>",
            FailurePart::After => b"</mark>",
            FailurePart::ExcerptEnd => b"</pre>\n",
            FailurePart::ArticleEnd => b"</article>\n",
        }
    }
}

/// Parts of the rings.
#[derive(Clone, Copy)]
pub(crate) enum RingPart {
    Begin,
    Ring,
    Member,
    /// The end of a ring, up to how many wait for it.
    Waiting,
}

impl RingPart {
    fn bytes(self) -> &'static [u8]
        ensures { result.now ≡ ring_bytes self }
    {
        match self {
            RingPart::Begin => b"<section id=\"rings\"><h2>Cycles</h2>\n",
            RingPart::Ring => b"<ol class=\"ring\">\n",
            RingPart::Member => b"<li>",
            RingPart::Waiting => b"</ol>\n<p>Not in the cycle, but waiting for it: ",
        }
    }
}

/// Parts of the notes.
#[derive(Clone, Copy)]
pub(crate) enum NotePart {
    Begin,
    Note,
    End,
}

impl NotePart {
    fn bytes(self) -> &'static [u8]
        ensures { result.now ≡ note_bytes self }
    {
        match self {
            NotePart::Begin => b"<section id=\"notes\"><h2>Notes</h2>\n<ul>\n",
            NotePart::Note => b"<li>",
            NotePart::End => b"</ul>\n</section>\n",
        }
    }
}

/// Parts of the rows.
#[derive(Clone, Copy)]
pub(crate) enum RowPart {
    /// A row, up to its class.
    Begin,
    Path,
    /// What the row's record has, up to the row's number.
    Record,
    Needs,
    Change,
    Create,
    Always,
    NeededBy,
    Outcome,
    /// A link to a failure, up to the number of its row.
    Failure,
}

impl RowPart {
    fn bytes(self) -> &'static [u8]
        ensures { result.now ≡ row_bytes self }
    {
        match self {
            RowPart::Begin => b"<tr class=\"",
            RowPart::Path => b"\"><th scope=\"row\"><details><summary>",
            RowPart::Record => b"</summary><dl id=\"t",
            RowPart::Needs => b"<dt>needs",
            RowPart::Change => b"<dd>change ",
            RowPart::Create => b"<dd>create ",
            RowPart::Always => b"<dd>always",
            RowPart::NeededBy => b"<dt>needed by<dd class=\"by\">",
            RowPart::Outcome => b"</dl></details><td>",
            RowPart::Failure => b" <a href=\"#f",
        }
    }
}

/// Parts of the data, which is one object of JSON.
#[derive(Clone, Copy)]
pub(crate) enum DataPart {
    /// What comes before the data: the end of what is shown.
    Begin,
    /// Up to how many rows there are.
    Count,
    Requested,
    Paths,
    Rows,
    End,
    /// The end of the data, up to the first script.
    Scripts,
    NextScript,
    LastScript,
    Comma,
    Open,
    Close,
    /// Where a target has no file.
    Null,
}

impl DataPart {
    fn bytes(self) -> &'static [u8]
        ensures { result.now ≡ data_bytes self }
    {
        match self {
            DataPart::Begin => b"</main>\n<script type=\"application/json\" id=\"report\">",
            DataPart::Count => b"{\"count\":",
            DataPart::Requested => b",\"requested\":[",
            DataPart::Paths => b"],\"paths\":[",
            DataPart::Rows => b"],\"rows\":[",
            DataPart::End => b"]}",
            DataPart::Scripts => b"</script>\n<script>",
            DataPart::NextScript => b"</script>\n<script>",
            DataPart::LastScript => b"</script>\n",
            DataPart::Comma => b",",
            DataPart::Open => b"[",
            DataPart::Close => b"]",
            DataPart::Null => b"null",
        }
    }
}

/// Parts of the page of a list.
#[derive(Clone, Copy)]
pub(crate) enum ListPart {
    /// The heading, up to the exit status.
    Begin,
    /// Up to how many targets are listed.
    Count,
    /// The form, up to what tells that there are more rows.
    Form,
    Heads,
    /// A row, up to its path.
    Row,
    State,
    /// The end of the table, up to the data.
    Data,
}

impl ListPart {
    fn bytes(self) -> &'static [u8]
        ensures { result.now ≡ list_bytes self }
    {
        match self {
            ListPart::Begin => b"Out of date</h1>\n<dl class=\"sum\">\n<div><dt>exit status<dd>",
            ListPart::Count => b"</div>\n<div><dt>targets<dd>",
            ListPart::Form => LIST_FORM,
            ListPart::Heads => LIST_HEADS,
            ListPart::Row => b"<tr><th scope=\"row\"><bdi>",
            ListPart::State => b"</bdi><td>",
            ListPart::Data => LIST_END,
        }
    }
}
