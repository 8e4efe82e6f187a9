//! The channel that is closed as a Job ends.

ghost use Rattle.std.specs.Prelude.{◌≡◌, ◌+◌, ◌^◌, ◌<◌};
ghost use Rattle.job_model.specs.Done.{done_channel};

use co_base::{ChannelId, Row};

/// The done channel of a row. Those of all rows stand one after the other from the base on.
pub fn done_channel(base: ChannelId, row: Row) -> ChannelId
    requires { base + row < 2 ^ 16 }
    ensures { result ≡ done_channel base row }
{
    base + row
}
