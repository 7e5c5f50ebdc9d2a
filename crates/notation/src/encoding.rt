// What is sent: the bytes of frames and of replies.
ghost use Rattle.std.specs.Prelude.{◌≡◌, ◌⊎◌, IfOk, IfErr};
ghost use Rattle.notation.specs.Encodings.{IsFrame, IsNoFrame, reply_bytes};
ghost use Rattle.notation.specs.declared.error.NotationError.TheVariants.{Memory};

use crate::error::NotationError;
use frame::making::{LONGEST_FRAME, make};
use record::Tag;
use reply::{LONGEST_REPLY, Reply};
use std::alloc::Global;

/// The frame of a code with its parameters.
pub fn make_frame(heap: Global, code: u8, parameters: &[u8]) -> Result<Vec<u8>, NotationError>
    ensures ok { IfOk result (λ bytes. IsFrame code parameters.now bytes.items) }
    ensures err { IfErr result (λ e. (e ≡ Memory) ⊎ IsNoFrame code parameters.now e) }
{
    let mut frame = vec![in heap; 0u8; LONGEST_FRAME]?;
    let length = make(code, parameters, frame.as_mut_slice())?;
    frame.truncate(length);
    Ok(frame)
}

/// A tag's reply, with its check value, or no bytes for none. Like `framed`, but each says by its own call what its
/// buffer holds, which a closure's contract could only say again.
pub fn write_reply(heap: Global, tag: &Tag, reply: Option<Reply>) -> Result<Vec<u8>, NotationError>
    ensures ok { IfOk result (λ bytes. bytes.items ≡ reply_bytes tag.now reply) }
    ensures err { IfErr result (λ e. e ≡ Memory) }
{
    let Some(reply) = reply else {
        return Ok(Vec::new(heap));
    };
    let mut bytes = vec![in heap; 0u8; LONGEST_REPLY]?;
    let length = reply.write(tag, bytes.as_mut_slice())?;
    bytes.truncate(length);
    Ok(bytes)
}
