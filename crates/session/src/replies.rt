// The replies of calls.
use calls::{Answer, Reply};
use std::fmt;

#[derive(Clone, Copy)]
pub(crate) struct CallLine<'a>(pub(crate) &'a Reply);

impl fmt::Display for CallLine<'_> {
    fn fmt<W: fmt::Write>(&self, f: &mut fmt::Formatter<W>) -> fmt::Result {
        let Reply { answer, follow } = self.0;
        let number = calls::reply::number(*answer);
        match *answer {
            Answer::Accept(bearer) => {
                write!(f, "accept {bearer}")?;
                if follow.count != 0 {
                    f.write_str(" follow-up")?;
                }
                for bearer in follow.bearers.iter().take(usize::from(follow.count)) {
                    write!(f, " {bearer}")?;
                }
                Ok(())
            }
            Answer::Reject(bearer, _, None) => write!(f, "reject {bearer} {number}"),
            Answer::Reject(bearer, _, Some(place)) => {
                write!(f, "reject {bearer} {number} at {place}")
            }
            Answer::Release(default) => write!(f, "release {default}"),
            Answer::Reattach => f.write_str("re-attach"),
            Answer::Started(transaction) => write!(f, "started {transaction}"),
            Answer::Closed(transaction) => write!(f, "closed {transaction}"),
            Answer::Synchronised => f.write_str("synchronised"),
            Answer::Refused(_) => write!(f, "refused {number}"),
        }
    }
}
