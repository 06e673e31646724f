// An external policy rewritten.
ghost use Rattle.capi.specs.Replies.{RewrittenInto};

use crate::NO_REFUSAL;
use policy_rewriting::rewrite;
use refusals::NO_PART;

// Rewrites an external policy under our key into the area: the refusal's number, 0 for none. The length is the output's.
#[unsafe(no_mangle)]
pub extern "C" fn txb_rewrite(
    policy: &[u32],
    our_key: u32,
    area: &mut [u32],
    part: &mut u32,
    length: &mut usize,
) -> u32
    ensures { RewrittenInto our_key policy.now area.old
        (record { number = result; part = part.new; size = length.new }) area.new }
{
    match rewrite(policy, our_key, area) {
        Ok(words) => {
            *part = NO_PART;
            *length = words;
            NO_REFUSAL
        }
        Err(refused) => {
            *part = u32::from(refused.part);
            *length = 0;
            u32::from(refused.refusal)
        }
    }
}
