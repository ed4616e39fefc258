use sm_envelope::envelope::Envelope;
use sm_foreign::{Chief, ForeignChief, ForeignPass, FreePass};
use sm_place::Plan;
use sm_publish::{WordPublisher, WordRouter};
use sm_ranges::layout::Layout;
use sm_rule::note::Note;
use sm_server::Answer;
use sm_service::{CounterText, KeyMachine, Reply, Request};

/// The state that a handle keeps.
#[derive(Drop)]
pub enum HandleState {
    /// Nothing, only during a call.
    Empty,
    /// A board's control.
    Chief(ForeignChief),
    /// The control of a board of the sample service.
    TextChief(Box<Chief<CounterText>>),
    /// A pass to foreign bodies, with the permit that it holds, if any.
    Pass(ForeignPass),
    /// A pass of a board of the sample service.
    TextPass(FreePass<CounterText>),
    /// A request to the sample service on its way.
    Envelope(Envelope<Request, Note<CounterText>>),
    /// The answer to one.
    Answer(Answer<CounterText>),
    /// How the key space is cut into shards.
    Layout(Layout),
    /// A plan of moves.
    Plan(Plan),
    /// Texts and counts by key, in a map that the caller owns.
    Map(Box<KeyMachine>),
    /// The reply of a map.
    Reply(Reply),
    /// A publisher of routes.
    Publisher(WordPublisher),
    /// A reader of published routes.
    Router(WordRouter),
}
