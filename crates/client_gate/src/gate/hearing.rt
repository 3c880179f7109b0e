//! What effects do to a gate. After an error the gate is as before.
ghost use Rattle.std.specs.Prelude.{◌≡◌, if◌then◌else◌, IfOk, IsOk, OnErr, OnOk};
ghost use Rattle.machine_laws.specs.Origins.{same_origin};
ghost use Rattle.client_gate.specs.Answers.{given_in};
ghost use Rattle.client_gate.specs.Gates.{WritesNothing, after_effect, busy, given_effect, nothing, of_buffers};

use crate::fed::Fed;
use crate::gate::{ClientGate, GateEffect};
use crate::waiting::drop_answered;
use crate::writing::{push_shown, push_status};
use buffer_commands::Effect;
use request_once::Answer;
use session_fence::FenceEffect;
use std::alloc::AllocError;
use upstream_claim::ClaimsEffect;
use wire_bytes::Origin;

const BUSY: &[u8] = b"Busy, not sent.";

impl ClientGate {
    pub(super) fn hear(&mut self, effect: &GateEffect) -> Result<Fed, AllocError>
        ensures answer { IfOk result (λ fed.
            given_in fed ≡ given_effect self.old.settings effect.now) }
        ensures gate { OnOk result (self.new ≡ record self.old
            { gate = after_effect self.old.settings self.old.gate effect.now }) }
        ensures err { OnErr result (self.new ≡ self.old) }
        ensures memory { WritesNothing effect.now → IsOk result }
    {
        match effect {
            Answer::Effect(effect) => self.hear_claims(effect),
            Answer::Done(origin, number) | Answer::Repeat(origin, number) => {
                if self.is_for(origin) {
                    drop_answered(&mut self.waiting, *number);
                }
                Ok(Fed::nothing(self.alloc))
            }
            Answer::Gap(_, _) | Answer::Marked(_) => Ok(Fed::nothing(self.alloc)),
        }
    }

    fn hear_claims(&mut self, effect: &ClaimsEffect<FenceEffect<Effect>>) -> Result<Fed, AllocError>
        ensures answer { IfOk result (λ fed.
            given_in fed ≡ given_effect self.old.settings (Answer.Effect effect.now)) }
        ensures gate { OnOk result (self.new ≡ record self.old
            { gate = after_effect self.old.settings self.old.gate (Answer.Effect effect.now) }) }
        ensures err { OnErr result (self.new ≡ self.old) }
        ensures memory { WritesNothing (Answer.Effect effect.now) → IsOk result }
    {
        match effect {
            ClaimsEffect::Inner(FenceEffect::Inner(effect)) => self.hear_buffers(effect),
            ClaimsEffect::Busy(origin) => self.tell_busy(origin),
            _ => Ok(Fed::nothing(self.alloc)),
        }
    }

    fn hear_buffers(&mut self, effect: &Effect) -> Result<Fed, AllocError>
        ensures answer { IfOk result (λ fed.
            given_in fed ≡ given_effect self.old.settings (of_buffers effect.now)) }
        ensures gate { OnOk result (self.new ≡ record self.old
            { gate = after_effect self.old.settings self.old.gate (of_buffers effect.now) }) }
        ensures err { OnErr result (self.new ≡ self.old) }
        ensures memory { WritesNothing (of_buffers effect.now) → IsOk result }
    {
        let mut fed = Fed::nothing(self.alloc);
        match effect {
            Effect::Close(origin) => if self.is_for(origin) {
                self.closed = true;
                fed.close = true;
            },
            Effect::Show(origin, shown) => if self.is_for(origin) {
                push_shown(&mut fed.reply, shown)?;
            },
            Effect::Send(_, _) | Effect::Rejoin(_) => {}
        }
        Ok(fed)
    }

    fn tell_busy(&self, origin: &Origin) -> Result<Fed, AllocError>
        ensures { let s = self.now.settings in IfOk result (λ fed. given_in fed ≡
            (if same_origin s.origin origin.now then busy s else nothing)) }
    {
        if self.is_for(origin) {
            self.busy_line()
        } else {
            Ok(Fed::nothing(self.alloc))
        }
    }

    fn busy_line(&self) -> Result<Fed, AllocError>
        ensures { IfOk result (λ fed. given_in fed ≡ busy self.now.settings) }
    {
        let mut reply = Vec::new(self.alloc);
        push_status(&mut reply, &self.settings.nick, BUSY)?;
        Ok(Fed::of_reply(self.alloc, reply))
    }

    fn is_for(&self, origin: &Origin) -> bool
        ensures { result ≡ same_origin self.now.settings.origin origin.now }
    {
        is_same_origin(&self.settings.origin, origin)
    }
}

/// Whether two origins are the same.
fn is_same_origin(a: &Origin, b: &Origin) -> bool
    ensures { result ≡ same_origin a.now b.now }
{
    a.node() == b.node() && a.boot() == b.boot() && a.client() == b.client()
}
