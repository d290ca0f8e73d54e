//! Whose turn it is in a call of a keeper over two.

// The lower keeper is changed, and answers; then the upper one is. Where either can't, the upper
// one is dropped.
macro_rules! change {
    ($mirror:ident, $call:ident($($argument:expr),*)) => {{
        let done = $mirror.lower.$call($($argument),*);
        if done.is_ok()
            && let Some(upper) = &mut $mirror.upper
            && upper.$call($($argument),*).is_ok()
        {
            return done;
        }
        $mirror.upper = None;
        done
    }};
}

pub(crate) use change;
