//! Responses to messages.

ghost use Rattle.extent_list.specs.dcd_codes.specs.Rules.{code_of as code_for};
ghost use Rattle.device_rules.specs.Answers.{response};
ghost use Rattle.std.specs.Prelude.{◌≡◌, []};

use cci_codec::dcd_base::Bytes;
use cci_codec::{Request, Response};
use extent_list::dcd_codes::{Code, Rule, code_of, number_of};
use journal_core::Reply;
use std::alloc::Global;

/// The response to a request, with its tag and opcode.
pub fn answer(request: &Request, code: Code, payload: Bytes) -> Reply
    ensures { result ≡ response request.now code payload }
{
    Reply::Answer(Response {
        tag: request.tag,
        opcode: request.opcode,
        code: number_of(code),
        payload,
    })
}

/// The response to a request that breaks a rule, which has no payload.
pub fn refused(alloc: Global, request: &Request, rule: &Rule) -> Reply
    ensures { result ≡ response request.now (code_for rule.now) [] }
{
    answer(request, code_of(rule), Bytes::new(alloc))
}
