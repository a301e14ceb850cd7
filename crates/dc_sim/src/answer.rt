//! What a query asks, and the bytes of an answer.
ghost use Rattle.std.specs.Prelude.{◌≡◌, ◌≤◌, ◌++◌, length, [], option_map};
ghost use Rattle.arrayvec.specs.ArrayVec.{array_vec_len};
ghost use Rattle.dc_model.specs.Message as model;
ghost use Rattle.dc_packet.specs.Question.{question_read};
ghost use Rattle.dc_simulation.specs.Tree as tree;
ghost use Rattle.dc_sim.specs.Asking.{asked_of, asked_in, question_by, head_bytes};
ghost use Rattle.dc_sim.specs.Replies.{content_by};

use crate::bytes::{Bytes, put, put_u16};
use crate::reply::{Reply, Shape};
use arrayvec::ArrayVec;
use dc_packet::{Question, read_name, u16_at};

/// How many bytes a header has.
const HEADER: usize = 12;

/// The greatest length of a message.
const MOST: usize = 65535;

/// What a query asks, with its id.
#[derive(Drop)]
pub(crate) struct Asked {
    pub(crate) id: u16,
    pub(crate) question: Question,
}

/// The question behind the header.
fn question_in(query: &[u8]) -> Option<Question>
    requires header { 12 ≤ length query.now }
    requires most { length query.now ≤ 65535 }
    ensures { option_map question_read result ≡ model.question_at query.now 12 }
{
    let (name, behind) = read_name(query, HEADER).ok()?;
    let after = behind + 4;
    if after > query.len() {
        return None;
    }
    Some(Question {
        name,
        kind: u16_at(query, behind),
        class: u16_at(query, behind + 2),
        after,
    })
}

impl Asked {
    /// What a query asks; `None` where it is too long, or has no whole header and question.
    pub(crate) fn of(query: &[u8]) -> Option<Asked>
        ensures { option_map asked_of result ≡ asked_in query.now }
    {
        if query.len() < HEADER || query.len() > MOST {
            return None;
        }
        Some(Asked {
            id: u16_at(query, 0),
            question: question_in(query)?,
        })
    }

    /// Adds the header, as long as it is until the counts, and the question behind it.
    fn put_head(&self, shape: &Shape, out: &mut Bytes)
        requires { array_vec_len out.old ≤ 0 }
        ensures items { out.new.items ≡ out.old.items ++ head_bytes self.now.id (question_by self.now) shape.now.flags shape.now.answer shape.now.authority shape.now.additional }
        ensures len { array_vec_len out.new ≤ 271 }
    {
        put_u16(out, self.id);
        put_u16(out, shape.flags);
        put_u16(out, 1);
        put_u16(out, shape.answer);
        put_u16(out, shape.authority);
        put_u16(out, shape.additional);
        put(out, self.question.name.wire());
        put_u16(out, self.question.kind);
        put_u16(out, self.question.class);
    }

    /// The answer to it.
    pub(crate) fn answer(&self, reply: &Reply) -> Bytes
        ensures items { result.items ≡ tree.answer_bytes self.now.id (question_by self.now) (content_by reply.now) }
        ensures len { array_vec_len result ≤ 1471 }
    {
        let mut out: Bytes = ArrayVec::new();
        self.put_head(&reply.shape(), &mut out);
        reply.put_records(&mut out);
        out
    }
}

/// A message behind its length.
pub(crate) fn framed(message: &Bytes) -> Bytes
    requires { array_vec_len message.now ≤ 1471 }
    ensures items { result.items ≡ model.framed message.now.items }
    ensures len { array_vec_len result ≤ 1473 }
{
    let mut out: Bytes = ArrayVec::new();
    put_u16(&mut out, message.len() as u16);
    put(&mut out, message.as_slice());
    out
}
