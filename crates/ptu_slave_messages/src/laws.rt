//! What the definitions say of datagrams that were made out by hand. The bodies are empty.
ghost use Rattle.ptu_slave_messages.specs.Examples.{DatagramsAreSent, ReasonsAreFound};

/// What a slave sends, and why it ignores what it is sent.
pub fn sample_datagrams()
    ensures sent { DatagramsAreSent }
    ensures ignored { ReasonsAreFound }
{}
