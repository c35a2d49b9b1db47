use lynx_codec::Looked;
use lynx_entry::{Answer, Request};
use lynx_names::{ChainId, Memory};

/// Who answers a client: a session with a cluster, say. Whatever it answers has an encoding.
pub trait Desk {
    ghost use Rattle.std.specs.Prelude.{◌≡◌, ◌≤◌, [], length, All, IfOk, vec_capacity};
    ghost use Rattle.lynx_codec.specs.Ranges.{IsAnswerInRange, IsLookedInRange};
    ghost use Rattle.lynx_port.specs.Desks.{Begins, BeginsAll, Looks};

    // What a begin may answer, and what a look may, each from one state of the desk to the next.
    ghost begins: { Begins Self };

    ghost looks: { Looks Self };

    /// Answers a request. An answer of want of memory is an answer like others: the client is told
    /// of it.
    fn begin(&mut self, request: Request) -> Answer
        ensures begins { begins self.old request result self.new }
        ensures range { IsAnswerInRange result };

    /// Answers these requests in order, as `begin` does each of them: each answer is put behind
    /// those before it, into a list that has room for all.
    fn begin_all(&mut self, requests: Vec<Request>, answers: &mut Vec<Answer>)
        requires empty { answers.old.items ≡ [] }
        requires room { length requests.items ≤ vec_capacity answers.old }
        ensures begins { BeginsAll begins self.old requests.items answers.new.items self.new }
        ensures range { All IsAnswerInRange answers.new.items }
    {
        for request in requests {
            let answer = self.begin(request);
            answers.push(answer).unwrap();
        }
    }

    /// Looks for the entry of that hop of the chain. Want of memory has no encoding: it ends the
    /// connection.
    fn look(&mut self, chain: ChainId, hop: u8) -> Result<Looked, Memory>
        ensures looks { looks self.old chain hop result self.new }
        ensures range { IfOk result IsLookedInRange };

    /// A client asks for the end of all. It is told so as soon as its item was read, before it is
    /// answered: whether the answer can be written or not.
    fn shut(&mut self)
        ensures same { self.new ≡ self.old };
}
