// The calls of a post for C, as include/post.h declares them: a static library over `post`, with one export for each call.
#![tactic(auto)]

mod faces;
mod word_faces;
