//! A tree that no script of today has, made from its parts: the words for channels are still kept for later.
use jd_grammar::token::{Kind, Token};
use jd_tree::build::leaf_of;
use jd_tree::measured::Measured;
use jd_tree::parts::{ChannelSigns, remote_of};
use jd_tree::tree::Channel;
use std::test::Fail;

fn token(kind: Kind) -> Token {
    Token {
        kind,
        start: 0,
        end: 1,
        spaced: false,
    }
}

fn number(value: u64) -> Measured {
    leaf_of(token(Kind::Number(value)))
}

#[test]
fn a_channel_nests_round_its_length_and_its_process(rt: HostRuntime) -> Result<(), Fail> {
    let any = token(Kind::Comma);
    let channel = Channel {
        callee: any,
        opens: any,
        none_opens: any,
        none_closes: any,
        arrow: any,
        word: any,
        brace: any,
    };
    let signs = ChannelSigns {
        element: any,
        shut: any,
        opens: any,
        closes: any,
        comma: any,
        last: any,
    };
    let remote = remote_of(rt.alloc(), channel, signs, number(1), number(2))?;
    let nesting = remote.profile.nesting;
    drop(remote);
    assert_eq!(&rt; nesting, 3);
    Ok(())
}
