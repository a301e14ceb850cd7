//! Laws on replies that are built.
ghost use Rattle.std.specs.Prelude.{◌<◌, ◌^◌, IsTrue};
ghost use Rattle.dc_model.specs.Name.{IsName};
ghost use Rattle.dc_model.specs.Message.{Request};
ghost use Rattle.dc_model.specs.Reply as model;
ghost use Rattle.dc_model.specs.ReadBack.{IsAnswer, IsReply};

/// A reply that is begun and gets answers that fit it and their types is one that is read back as it says.
pub fn built_replies_are_replies()
    ensures begun { (r : Request) → IsName r.name → r.id < 2 ^ 16 → r.kind < 2 ^ 16 → r.class < 2 ^ 16
        → IsReply (model.reply_to r) }
    ensures answered { (r : model.Reply) (a : model.Answer) → IsReply r → IsAnswer a
        → IsTrue (model.fits (model.with_answer a r)) → IsReply (model.with_answer a r) }
    ensures nxdomain { (r : model.Reply) → IsReply r → IsReply (model.nxdomain r) }
    ensures servfail { (r : model.Reply) → IsReply r → IsReply (model.servfail r) }
{}
