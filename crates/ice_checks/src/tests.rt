use crate::{
    AwaitedChecks, CheckResponse, Credentials, Judged, Session, Signature, judge, write_check,
};
use ice_attrs::Ufrag;
use ice_machine::{Answer, Request, Role};
use std::test::Fail;
use stun_endpoints::{Endpoint, Ip};
use stun_types::message::{IntegrityAlgorithm, IntegrityKey, MessageWriteVec, TransactionId};
use stun_types::prelude::*;

/// The one check that a response is waited for.
struct One(u128);

impl AwaitedChecks for One {
    ghost use Rattle.std.specs.Prelude.{◌==◌};

    ghost is_awaited = { λ one id. one.0 == id };

    fn awaits(&self, id: u128) -> bool {
        self.0 == id
    }
}

/// A check of one agent is a check to the other one, whose response is one to the first.
#[test]
fn agents_understand_each_other(rt: HostRuntime) -> Result<(), Fail> {
    let alloc = rt.alloc();
    let (left, right) = (
        Ufrag::new("evtj").ok_or("left")?,
        Ufrag::new("h6vY").ok_or("right")?,
    );
    let left_key = IntegrityKey::new(alloc, b"VOkJxbRl1RmTxUk/WvJxBt", None)?;
    let right_key = IntegrityKey::new(alloc, b"KPKLPQPlb6g8DVIXiyRPqZ", None)?;
    let left = Credentials {
        fragment: left,
        key: &left_key,
    };
    let right = Credentials {
        fragment: right,
        key: &right_key,
    };
    let address = Endpoint {
        ip: Ip {
            family: 1,
            number: 0xC000_0201,
        },
        port: 32853,
    };
    let request = Request {
        id: 7,
        base: 1,
        to: address,
        role: Role::Controlling,
        tiebreaker: 9,
        nominates: false,
        priority: 5,
        sent: 0,
    };
    let mut write = MessageWriteVec::new(alloc);
    write_check(&request, left.fragment, &right, None, &mut write)?;
    let session = Session {
        own: right,
        peer: Some(left),
    };
    let Judged::Checks { check, algorithm } = judge(&session, &One(7), 2, address, &write.finish())
    else {
        return Err("no check".into());
    };
    assert!(rt; check.role == Role::Controlling && check.tiebreaker == 9 && check.base == 2);
    assert_eq!(rt; algorithm, IntegrityAlgorithm::Sha1);
    let signature = Signature {
        key: &right_key,
        algorithm,
    };
    let mut write = MessageWriteVec::new(alloc);
    let response = CheckResponse::Success { source: check.from };
    response.write_into(TransactionId::from(check.id), Some(signature), &mut write)?;
    let bytes = write.finish();
    let session = Session {
        own: left,
        peer: Some(right),
    };
    let expected = Judged::Responds {
        id: 7,
        answer: Answer::Accepted,
        mapped: Some(address),
    };
    assert_eq!(rt; judge(&session, &One(7), 1, address, &bytes), expected);
    assert_eq!(rt;
        judge(&session, &One(8), 1, address, &bytes),
        Judged::Strays { id: 7 }
    );
    Ok(())
}
